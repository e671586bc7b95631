//! A log on a disk that lends no bytes, whose end is found by reads.
ghost use Rattle.std.specs.Prelude.{◌≡◌, false};
ghost use Rattle.c8_disk.specs.Memory.{bytes_of, images_of, moment_of, left_since, room_of, arms_of, failures_of, changes_of, value_of, IsMemoryCall, with_arm};
ghost use Rattle.c8_disk.specs.checked.PastLaws.{reads_image, counts, only};

use crate::calls::{new_disk, writes};
use c8_disk::{Arm, Disk, DiskError, MemDisk};
use c8_log::{CLOSED_GATE, Log, LogError, OPEN_GATE, SLOT_LENGTH};
use std::alloc::Global;

/// A disk in memory that lends none of its bytes.
#[derive(Drop)]
struct Unlent {
    disk: MemDisk,
}

impl Disk for Unlent {
    ghost seen = { λ d. bytes_of d.disk };

    ghost may_leave = { λ d. images_of d.disk };

    ghost moment = { λ d. moment_of d.disk };

    ghost left_since = { λ d. left_since d.disk };

    ghost failures = { λ d. failures_of d.disk };

    ghost changes = { λ d. changes_of d.disk };

    ghost capacity = { λ d. room_of d.disk };

    ghost lends = { false };

    ghost arms = { λ d. arms_of d.disk };

    ghost does = { λ d call e. IsMemoryCall (value_of d.disk) call (value_of e.disk) };

    ghost told = { λ d arm e. value_of e.disk ≡ with_arm arm (value_of d.disk) };

    ghost reads_now = { λ d. reads_image d.disk.first.items d.disk.calls.items
        d.disk.bytes.items d.disk.lawful d.disk.replayed };

    ghost counts_now = { λ d. counts d.disk.first.items d.disk.calls.items };

    ghost only_now = { λ d. only d.disk.first.items d.disk.calls.items };

    fn len(&self) -> u32 {
        self.disk.len()
    }

    fn capacity(&self) -> u32 {
        self.disk.capacity()
    }

    fn held(&self) -> Option<&[u8]> {
        None
    }

    fn read_at(&mut self, at: u32, buffer: &mut [u8]) -> Result<(), DiskError> {
        self.disk.read_at(at, buffer)
    }

    fn write_at(&mut self, at: u32, bytes: &[u8]) -> Result<(), DiskError> {
        self.disk.write_at(at, bytes)
    }

    fn sync(&mut self) -> Result<(), DiskError> {
        self.disk.sync()
    }

    fn arm(&mut self, arm: Arm) {
        self.disk.arm(arm);
    }
}

/// A disk with `count` open slots and a closed gate.
fn filled(alloc: Global, count: u32) -> Option<MemDisk> {
    let mut disk = new_disk(alloc, 10_000)?;
    for _ in 0..count {
        let at = disk.len();
        if !writes(&mut disk, at, &[OPEN_GATE; SLOT_LENGTH], None) {
            return None;
        }
    }
    let end = disk.len();
    if writes(&mut disk, end, &[CLOSED_GATE], None) {
        Some(disk)
    } else {
        None
    }
}

/// Opens a log on a disk that serves this many calls, and answers how many bodies it counts.
fn counted<D: Disk + Drop>(mut disk: D, calls: u64) -> Result<u32, LogError> {
    disk.arm(Arm::Stop(calls));
    match Log::open(disk) {
        Ok(log) => Ok(log.len()),
        Err((error, _)) => Err(error),
    }
}

/// Whether a sync is enough to open a log of `count` bodies on a disk that lends them, and a sync and
/// this many reads, but no fewer, on one that lends none.
fn is_opened(alloc: Global, count: u32, reads: u64) -> bool {
    let (Some(lent), Some(unlent), Some(stopped)) = (
        filled(alloc, count),
        filled(alloc, count),
        filled(alloc, count),
    ) else {
        return false;
    };
    counted(lent, 1) == Ok(count)
        && counted(Unlent { disk: unlent }, reads.saturating_add(1)) == Ok(count)
        && counted(Unlent { disk: stopped }, reads) == Err(LogError::Failed)
}

/// Numbers of bodies, and of the blocks up to the gate after them.
const LOGS: [(u32, u64); 6] = [(0, 1), (1, 1), (31, 1), (32, 2), (33, 2), (64, 3)];

#[test]
fn the_end_is_found_in_place_or_by_blocks(rt: HostRuntime) {
    for (count, reads) in &LOGS {
        assert!(rt; is_opened(rt.alloc(), *count, *reads), "{count}");
    }
}
