//! The calls that changed a disk, kept to find the images that a crash may leave.
ghost use Rattle.std.specs.Prelude.{◌≡◌, ◌≤◌, [], ◌∷◌, length, vec_capacity, true};
ghost use Rattle.c8_disk.specs.Disk.{longest_write};
ghost use Rattle.c8_disk.specs.Past.{content, synced_count, are_lawful, fit, IsWriteOf, TornBy};

use crate::LONGEST_WRITE;
use crate::bytes::{overwrite, tear};
use rand_pcg::Pcg32;

/// A call that wrote or synced.
#[derive(Clone, Copy)]
pub enum Call {
    /// The first `length` of these bytes were written at place `at`.
    Write {
        at: u32,
        length: u32,
        bytes: [u8; LONGEST_WRITE],
    },
    Sync,
}

pub(crate) fn write_call(at: u32, bytes: &[u8]) -> Call
    requires { length bytes.now ≤ longest_write }
    ensures { IsWriteOf at bytes.now result }
{
    let mut kept = [0; LONGEST_WRITE];
    kept[..bytes.len()].copy_from_slice(bytes);
    Call::Write {
        at,
        length: bytes.len() as u32,
        bytes: kept,
    }
}

/// Returns how many calls there are up to the last sync.
pub(crate) fn count_synced(calls: &[Call]) -> usize
    ensures { result ≡ synced_count calls.now }
{
    let mut synced = 0;
    for (i, call) in calls.iter().enumerate() {
        if let Call::Sync = call {
            synced = i + 1;
        }
    }
    synced
}

/// Applies a call.
fn repeat(file: &mut Vec<u8>, call: &Call)
    requires lawful { are_lawful file.old.items (call.now ∷ []) ≡ true }
    requires fits { fit (vec_capacity file.old) (call.now ∷ []) ≡ true }
    ensures content { file.new.items ≡ content file.old.items (call.now ∷ []) }
    ensures capacity { vec_capacity file.old ≤ vec_capacity file.new }
{
    if let Call::Write { at, length, bytes } = call {
        overwrite(file, *at as usize, &bytes[..*length as usize]);
    }
}

/// Applies the calls in order.
pub(crate) fn replay(file: &mut Vec<u8>, calls: &[Call])
    requires lawful { are_lawful file.old.items calls.now ≡ true }
    requires fits { fit (vec_capacity file.old) calls.now ≡ true }
    ensures content { file.new.items ≡ content file.old.items calls.now }
    ensures capacity { vec_capacity file.old ≤ vec_capacity file.new }
{
    for call in calls {
        repeat(file, call);
    }
}

/// Applies a call as a crash may leave it.
fn tear_one(file: &mut Vec<u8>, call: &Call, choices: &mut Pcg32)
    requires { fit (vec_capacity file.old) (call.now ∷ []) ≡ true }
    ensures torn { TornBy (call.now ∷ []) file.old.items file.new.items }
    ensures capacity { vec_capacity file.old ≤ vec_capacity file.new }
{
    if let Call::Write { at, length, bytes } = call {
        tear(file, *at as usize, &bytes[..*length as usize], choices);
    }
}

/// Applies the calls in order, as a crash may leave them.
pub(crate) fn tear_all(file: &mut Vec<u8>, calls: &[Call], choices: &mut Pcg32)
    requires { fit (vec_capacity file.old) calls.now ≡ true }
    ensures torn { TornBy calls.now file.old.items file.new.items }
    ensures capacity { vec_capacity file.old ≤ vec_capacity file.new }
{
    for call in calls {
        tear_one(file, call, choices);
    }
}
