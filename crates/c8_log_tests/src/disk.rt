//! Which image a crash of a disk in memory leaves, by its pick.
use crate::calls::{syncs, writes};
use c8_disk::MemDisk;
use rand_pcg::Pcg32;
use rand_pcg::rand_core::{Rng, SeedableRng};
use std::alloc::Global;

const OLD: &[u8] = b"0123456789";

/// A write within the old bytes, at place 1.
const LETTERS: &[u8] = b"abcdef";

/// A write that begins in the old bytes, at place 8, and ends past them.
const CAPITALS: &[u8] = b"UVWXYZ";

/// A disk that has the old bytes for good, and both writes without a sync.
fn written(alloc: Global) -> Option<MemDisk> {
    let mut disk = MemDisk::new(alloc, 16, 8).ok()?;
    let is_written = writes(&mut disk, 0, OLD, None)
        && syncs(&mut disk, None)
        && writes(&mut disk, 1, LETTERS, None)
        && writes(&mut disk, 8, CAPITALS, None);
    if is_written { Some(disk) } else { None }
}

fn crashed(disk: MemDisk, pick: u64) -> MemDisk {
    disk.crash(pick)
}

/// Bytes of a disk, and how many there are.
#[derive(Clone, Copy)]
struct Image {
    bytes: [u8; 16],
    length: usize,
}

/// The byte that is left where one was written: that one, or any other.
fn byte_left(words: &mut Pcg32, written: u8) -> u8 {
    let word = words.next_u32();
    if word % 2 == 0 {
        written
    } else {
        (word >> 24) as u8
    }
}

/// Leaves a beginning of a write, or all of it.
fn tear(image: &mut Image, words: &mut Pcg32, at: usize, bytes: &[u8]) {
    let reach = words.next_u32() as usize % (2 * bytes.len() + 1);
    for (i, written) in bytes.iter().enumerate().take(reach) {
        let byte = byte_left(words, *written);
        if let Some(place) = image.bytes.get_mut(at.saturating_add(i)) {
            *place = byte;
        }
    }
    let end = at.saturating_add(reach.min(bytes.len()));
    image.length = image.length.max(end);
}

/// What the rule leaves: a beginning of each write, or all of it, and each byte as it was written or
/// any other, by the words of a generator whose seed is the pick.
fn expected(pick: u64) -> Image {
    let mut words = Pcg32::seed_from_u64(pick);
    let mut image = Image {
        bytes: *b"0123456789......",
        length: 10,
    };
    tear(&mut image, &mut words, 1, LETTERS);
    tear(&mut image, &mut words, 8, CAPITALS);
    image
}

/// Whether a crash with this pick leaves what the rule says.
fn is_expected(alloc: Global, pick: u64) -> bool {
    let Some(disk) = written(alloc) else {
        return false;
    };
    let (left, image) = (crashed(disk, pick), expected(pick));
    image.bytes.get(..image.length) == Some(left.bytes())
}

#[test]
fn a_pick_seeds_the_generator(rt: HostRuntime) {
    for n in 0..98u64 {
        assert!(rt;
            is_expected(rt.alloc(), n + 2) && is_expected(rt.alloc(), u64::MAX - n),
            "{n}"
        );
    }
}
