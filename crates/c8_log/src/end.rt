//! Finds where the kept slots of a disk end.
ghost use Rattle.std.specs.Prelude.{◌≡◌, ◌<◌, ◌≤◌, ◌+◌, ◌*◌, ◌/◌, ◌^◌, false, length, take, drop, is_some, IfSome, IfOk, IsErrOf};
ghost use Rattle.c8_disk.specs.Disk.{HasCause};
ghost use Rattle.c8_disk.specs.Runs.{ReadsOnly};
ghost use Rattle.c8_disk.specs.Asks.{Asks, Reads, answer_of};
ghost use Rattle.c8_log.specs.Asked.{blocks_to_gate, end_reads};
ghost use Rattle.c8_log.specs.Slots.{kept_count, slot_length, block_slots};
ghost use Rattle.c8_log.specs.Log.{has_closed_gate};

use crate::block::{BLOCK, BLOCK_SLOTS, Block};
use crate::image::kept_len;
use crate::slot::{OPEN_GATE, SLOT, SLOT_LENGTH};
use c8_disk::{Disk, DiskError};

/// How many slots are kept, and whether the gate after them exists and is closed.
#[derive(Clone, Copy)]
pub(crate) struct End {
    pub(crate) count: u32,
    pub(crate) closed: bool,
}

/// Finds the end of the kept slots: in memory if the disk lends its bytes, else by reading blocks.
pub(crate) fn find_end<D: Disk>(disk: &mut D) -> Result<End, DiskError>
    ensures count { IfOk result (λ end. end.count ≡ kept_count (D.seen disk.old)) }
    ensures closed { IfOk result (λ end. end.closed ≡ has_closed_gate (D.seen disk.old)) }
    ensures fits { IfOk result (λ end. slot_length * end.count < 2 ^ 32) }
    ensures reads { ReadsOnly D.Disk disk.old disk.new }
    ensures asks { Asks D.Disk (Reads (end_reads D.lends (D.seen disk.old)))
        (answer_of result) disk.old disk.new }
    ensures cause { HasCause (D.failures disk.old) (D.failures disk.new) result }
    ensures never_full { IsErrOf result DiskError.Full → ⊥ }
{
    match end_held(disk) {
        Some(end) => Ok(end),
        None => read_end(disk),
    }
}

/// Finds the end in the bytes that the disk lends. Returns `None` if it lends none.
fn end_held<D: Disk>(disk: &D) -> Option<End>
    ensures lent { is_some result ≡ D.lends }
    ensures count { IfSome result (λ end. end.count ≡ kept_count (D.seen disk.now)) }
    ensures closed { IfSome result (λ end. end.closed ≡ has_closed_gate (D.seen disk.now)) }
    ensures fits { IfSome result (λ end. slot_length * end.count < 2 ^ 32) }
{
    // For the proof: the bytes of a disk are fewer than 2^32.
    let _length = disk.len();
    match disk.held() {
        Some(bytes) => Some(end_of(bytes)),
        None => None,
    }
}

/// Finds the end by reading block after block, up to the one that contains it.
fn read_end<D: Disk>(disk: &mut D) -> Result<End, DiskError>
    ensures count { IfOk result (λ end. end.count ≡ kept_count (D.seen disk.old)) }
    ensures closed { IfOk result (λ end. end.closed ≡ has_closed_gate (D.seen disk.old)) }
    ensures fits { IfOk result (λ end. slot_length * end.count < 2 ^ 32) }
    ensures reads { ReadsOnly D.Disk disk.old disk.new }
    ensures asks { Asks D.Disk (Reads (blocks_to_gate (D.seen disk.old)))
        (answer_of result) disk.old disk.new }
    ensures cause { HasCause (D.failures disk.old) (D.failures disk.new) result }
    ensures never_full { IsErrOf result DiskError.Full → ⊥ }
{
    let mut block = Block::new();
    let length = disk.len();
    for number in 0..length.div_ceil(BLOCK) {
        let end = end_in(disk, BLOCK * number, &mut block)?;
        if end.count < BLOCK_SLOTS as u32 {
            return Ok(End {
                count: BLOCK_SLOTS as u32 * number + end.count,
                closed: end.closed,
            });
        }
    }
    Ok(End {
        count: length / SLOT,
        closed: false,
    })
}

/// Reads one block, or less at the end of the disk, and finds the end of its kept slots.
fn end_in<D: Disk>(disk: &mut D, at: u32, block: &mut Block) -> Result<End, DiskError>
    requires { at ≤ length (D.seen disk.old) }
    ensures count { IfOk result (λ end.
        end.count ≡ kept_count (take (slot_length * block_slots) (drop at (D.seen disk.old)))) }
    ensures closed { IfOk result (λ end.
        end.closed ≡ has_closed_gate (take (slot_length * block_slots) (drop at (D.seen disk.old)))) }
    ensures reads { ReadsOnly D.Disk disk.old disk.new }
    ensures asks { Asks D.Disk (Reads 1) (answer_of result) disk.old disk.new }
    ensures cause { HasCause (D.failures disk.old) (D.failures disk.new) result }
    ensures never_full { IsErrOf result DiskError.Full → ⊥ }
{
    let size = (disk.len() - at).min(BLOCK) as usize;
    let part = &mut block.bytes[..size];
    disk.read_at(at, part)?;
    Ok(end_of(part))
}

/// Finds the end of the kept slots in these bytes.
fn end_of(bytes: &[u8]) -> End
    requires { length bytes.now < 2 ^ 32 }
    ensures count { result.count ≡ kept_count bytes.now }
    ensures closed { result.closed ≡ has_closed_gate bytes.now }
    ensures fits { slot_length * result.count ≤ length bytes.now }
{
    let count = kept_len(bytes);
    let gate = SLOT_LENGTH * count;
    End {
        count: count as u32,
        closed: gate < bytes.len() && bytes[gate] != OPEN_GATE,
    }
}
