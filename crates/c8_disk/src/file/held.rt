//! The bytes of a file when it was opened as a disk, and the calls since.
ghost use Rattle.std.specs.Prelude.{◌≡◌, ◌≤◌, ◌<◌, ◌+◌, ◌^◌, [], ◌∷◌, ◌++◌, true, length, vec_len, vec_capacity};
ghost use Rattle.c8_disk.specs.Disk.{overwritten, longest_write, Tears, AddsNone, Only, Elapses};
ghost use Rattle.c8_disk.specs.Past.{content, are_lawful, AddsWrite};

use crate::GhostList;
use crate::bytes::overwrite;
use crate::call::{Call, write_call};
use std::snapshot::Snapshot;

/// The bytes that the file is known to hold, in reserved room, and the calls that led there from the first bytes.
#[derive(Drop)]
pub(crate) struct Held {
    pub(crate) bytes: Vec<u8>,
    pub(crate) room: u32,
    first: Snapshot<Vec<u8>>,
    calls: GhostList<Call>,
    ghost room_fits: { room < 2 ^ 32 },
    ghost lawful: { are_lawful first.value.items calls.items ≡ true },
    ghost replayed: { bytes.items ≡ content first.value.items calls.items },
    ghost within: { vec_len bytes ≤ room },
    ghost bytes_room: { room ≤ vec_capacity bytes },
}

impl Held {
    ghost use Rattle.c8_disk.specs.File.{images, moment, left_since};

    pub(crate) fn new(bytes: Vec<u8>, room: u32) -> Held
        requires within { vec_len bytes ≤ room }
        requires reserved { room ≤ vec_capacity bytes }
        ensures bytes { result.bytes.items ≡ bytes.items }
        ensures room { result.room ≡ room }
        ensures first { result.first.value.items ≡ bytes.items }
        ensures calls { result.calls.items ≡ [] }
    {
        let first = Snapshot::of(&bytes);
        Held {
            bytes,
            room,
            first,
            calls: GhostList::new(),
        }
    }

    /// Notes a write. It counts as whole or torn, so it is noted even if the write to the file fails.
    pub(crate) fn note_write(&mut self, at: u32, bytes: &[u8])
        requires place { at ≤ length self.old.bytes.items }
        requires short { length bytes.now ≤ longest_write }
        requires fits { at + length bytes.now ≤ self.old.room }
        ensures bytes { self.new.bytes.items ≡ overwritten self.old.bytes.items at bytes.now }
        ensures room { self.new.room ≡ self.old.room }
        ensures first { self.new.first.value.items ≡ self.old.first.value.items }
        ensures calls { AddsWrite at bytes.now self.old.calls.items self.new.calls.items }
        ensures crash { Tears at (length bytes.now) (images self.old) (images self.new) }
        ensures time { Elapses (moment self.old) (moment self.new)
            (left_since self.old) (left_since self.new) (images self.new) }
    {
        overwrite(&mut self.bytes, at as usize, bytes);
        self.calls = self.calls.and(&write_call(at, bytes));
    }

    /// Notes a sync that succeeded.
    pub(crate) fn note_sync(&mut self)
        ensures bytes { self.new.bytes.items ≡ self.old.bytes.items }
        ensures room { self.new.room ≡ self.old.room }
        ensures first { self.new.first.value.items ≡ self.old.first.value.items }
        ensures calls { self.new.calls.items ≡ self.old.calls.items ++ Call.Sync ∷ [] }
        ensures durable { Only self.old.bytes.items (images self.new) }
        ensures crash { AddsNone (images self.old) (images self.new) }
        ensures time { Elapses (moment self.old) (moment self.new)
            (left_since self.old) (left_since self.new) (images self.new) }
    {
        self.calls = self.calls.and(&Call::Sync);
    }
}
