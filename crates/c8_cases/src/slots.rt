//! The slots of a journal.
use c8_disk::{Disk, MemDisk};
use c8_log::SLOT_LENGTH;
use c8_part_cases::{Answers, count_in, size_in, unreadable, write_at};
use std::io;

/// Prints slots: all of them, one, or those from one number to another.
pub(crate) fn journal(image: &[u8], words: &[&str], out: &mut Answers) -> io::Result<()> {
    let (from, to) = match words {
        [] => (0, usize::MAX),
        [one] => (size_in(one)?, size_in(one)?),
        [from, to] => (size_in(from)?, size_in(to)?),
        _ => return Err(unreadable()),
    };
    for (number, slot) in image.chunks(SLOT_LENGTH).enumerate() {
        if from <= number && number <= to {
            out.spell(number, slot)?;
        }
    }
    Ok(())
}

/// The place of a disk that a word spells: a number, or `SLOT:PLACE`.
pub(crate) fn place_in(word: &str) -> io::Result<u32> {
    match word.split_once(':') {
        Some((slot, place)) => {
            let begin = count_in(slot)?.saturating_mul(SLOT_LENGTH as u32);
            Ok(begin.saturating_add(count_in(place)?))
        }
        None => count_in(word),
    }
}

/// Adds a slot in place of the gate behind the last one, and a closed gate behind it.
pub(crate) fn add_slot(disk: &mut MemDisk, bytes: &[u8], out: &mut Answers) -> io::Result<()> {
    let place = disk.len().saturating_sub(1);
    write_at(disk, place, bytes, out)?;
    out.text.clear();
    let behind = place.saturating_add(SLOT_LENGTH as u32);
    write_at(disk, behind, &[0], out)
}
