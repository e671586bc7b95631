//! The log, which owns its disk.
ghost use Rattle.std.specs.Prelude.{◌≡◌, ◌≢◌, ◌<◌, ◌≤◌, ◌+◌, ◌*◌, ◌^◌, ◌++◌, [], ◌∷◌, ◌↔◌, ◌==◌, true, false, ℕ, length, take, drop, slice_get, Some, IfOk, OnOk, IfErr, OnErr, IsErrOf};
ghost use Rattle.c8_disk.specs.Disk.{AddsNone};
ghost use Rattle.c8_disk.specs.Runs.{LeavesOnly, IsSameDisk};
ghost use Rattle.c8_disk.specs.Asks.{Asks};
ghost use Rattle.c8_log.specs.Asked.{AppendWithin, Opening, told_by, told_by_opening};
ghost use Rattle.c8_log.specs.Slots.{body_of, kept, kept_count, slot_length, block_slots, slots_from};

use crate::LogError;
use crate::append::{add, has_room};
use crate::block::{BLOCK_SLOTS, Block, Slots};
use crate::open::settle;
use crate::slot::{BODY_LENGTH, SLOT, SLOT_LENGTH, Slot};
use c8_disk::{Arm, Disk};
use std::fmt;
use std::marker::Model;

/// A list of bodies of 143 bytes each on a disk. Disk failures and crashes never lose a body for which
/// `append` returned `Ok`.
#[derive(Drop)]
pub struct Log<D: Disk> {
    disk: D,
    count: u32,
    down: bool,
}

impl<D: Disk> Model for Log<D> {
    ghost use Rattle.c8_log.specs.Log.{LogValue, IsLog};

    ghost Value = { LogValue D };

    ghost view = { λ log. record { disk = log.disk; count = log.count; down = log.down } };

    ghost invariant = { λ log.
        IsLog D.Disk (record { disk = log.disk; count = log.count; down = log.down }) };
}

/// Shows how many bodies it counts, and whether it is down.
impl<D: Disk> fmt::Debug for Log<D> {
    fn fmt<W: fmt::Write>(&self, f: &mut fmt::Formatter<W>) -> fmt::Result {
        let count = self.count;
        let down = self.down;
        write!(f, "Log {{ count: {count}, down: {down} }}")
    }
}

impl<D: Disk> Log<D> {
    ghost use Rattle.c8_log.specs.Log.{KeepsOneOf, KeepsWithOrWithout, IsAtRest, IsLeftByOpening, IsLeftByAppend, disk_after, has_closed_gate, repaired, with_slot};
    ghost use Rattle.c8_log.specs.Read.{HasRead};

    /// Opens the log on a disk: syncs the disk, finds the last body, and closes the gate after it if
    /// that gate is open or missing. It looks for the last body in memory if the disk lends its bytes,
    /// else it reads block after block.
    ///
    /// An error returns the disk, which keeps the same bodies as before. `Full` means that there is no
    /// room for the closed gate. Some disks are down for good after a failure, such as
    /// [`c8_disk::FileDisk`]: drop such a disk and open it again by its path.
    pub fn open(disk: D) -> Result<Log<D>, (LogError, D)>
        ensures at_rest { IfOk result (λ log. IsAtRest D.Disk log) }
        ensures up { IfOk result (λ log. log.down ≡ false) }
        ensures repaired { IfOk result (λ log. D.seen log.disk ≡ repaired (D.seen disk)) }
        ensures kept { kept (D.seen (disk_after result)) ≡ kept (D.seen disk) }

        // A crash at any moment of the call leaves bodies that a crash before it could have left.
        ensures any_moment { LeavesOnly D.Disk disk (disk_after result)
            (KeepsOneOf (D.may_leave disk)) }

        // When each error comes, and what it leaves. An error always has a cause.
        ensures failed { IfErr result (λ refusal.
            refusal.0 ≡ LogError.Failed → D.failures disk < D.failures refusal.1) }
        ensures full { IfErr result (λ refusal.
            refusal.0 ≡ LogError.Full → (has_closed_gate (D.seen disk) ≡ false)
            × (D.capacity disk < slot_length * length (kept (D.seen disk)) + 1)
            × (D.failures refusal.1 ≡ D.failures disk)) }
        ensures unfailed { IfOk result (λ log. D.failures log.disk ≡ D.failures disk) }
        ensures left { IfErr result (λ refusal.
            IsLeftByOpening refusal.0 (D.seen disk) (D.seen refusal.1)) }
        ensures never_down { IfErr result (λ refusal. refusal.0 ≢ LogError.Down) }

        ensures changes { D.changes (disk_after result) ≤ D.changes disk + 3 }
        ensures no_repair { has_closed_gate (D.seen disk) ≡ true
            → D.changes (disk_after result) ≡ D.changes disk + 1 }
        ensures same { IsSameDisk D.Disk disk (disk_after result) }

        // Which disk calls it makes, up to the first that is refused.
        ensures asks { Asks D.Disk (Opening D.lends (D.seen disk)) (told_by_opening result)
            disk (disk_after result) }
    {
        let mut disk = disk;
        match settle(&mut disk) {
            Ok(count) => Ok(Log {
                disk,
                count,
                down: false,
            }),
            Err(error) => Err((LogError::from(error), disk)),
        }
    }

    /// Returns how many bodies the log counts: those that its opening found, and one for each `append`
    /// that returned `Ok`.
    pub fn len(&self) -> u32
        ensures count { result ≡ self.now.count }
        ensures at_rest { self.now.down ≡ false → IsAtRest D.Disk self.now }
    {
        self.count
    }

    /// Returns whether the log counts no bodies.
    pub fn is_empty(&self) -> bool
        ensures { result ≡ (self.now.count == 0) }
    {
        self.count == 0
    }

    /// Returns whether an `append` or a `read` failed since the opening.
    pub fn is_down(&self) -> bool
        ensures down { result ≡ self.now.down }
        ensures at_rest { self.now.down ≡ false → IsAtRest D.Disk self.now }
    {
        self.down
    }

    /// Appends a body, syncs it, and returns the number of its slot, from 0. After `Ok` every crash
    /// keeps the body. After an error the log is down. After `Failed` the next opening decides whether
    /// the body counts; after `Full` and `Down` it was not written.
    pub fn append(&mut self, body: &[u8; BODY_LENGTH]) -> Result<u32, LogError>
        ensures slot { IfOk result (λ slot. slot ≡ self.old.count) }
        ensures count { OnOk result (self.new.count ≡ self.old.count + 1) }
        ensures up { OnOk result (self.new.down ≡ false) }
        ensures kept { OnOk result
            (kept (D.seen self.new.disk) ≡ kept (D.seen self.old.disk) ++ body.now ∷ []) }
        ensures seen { OnOk result
            (D.seen self.new.disk ≡ with_slot (D.seen self.old.disk) self.old.count body.now) }
        ensures at_rest { OnOk result (IsAtRest D.Disk self.new) }

        // If the log was up, a crash at any moment of the call leaves the earlier bodies, with the new
        // one or without.
        ensures any_moment { self.old.down ≡ false → LeavesOnly D.Disk self.old.disk self.new.disk
            (KeepsWithOrWithout (kept (D.seen self.old.disk)) body.now) }

        // When each error comes, and what it leaves.
        ensures down { IsErrOf result LogError.Down ↔ (self.old.down ≡ true) }
        ensures down_leaves { IsErrOf result LogError.Down → self.new ≡ self.old }
        ensures full { IsErrOf result LogError.Full
            ↔ ((self.old.down ≡ false)
            × (D.capacity self.old.disk < slot_length * (self.old.count + 1) + 1)) }
        ensures full_leaves { IsErrOf result LogError.Full
            → self.new ≡ record self.old { down = true } }
        ensures failed { IsErrOf result LogError.Failed
            → D.failures self.old.disk < D.failures self.new.disk }
        ensures failed_leaves { IsErrOf result LogError.Failed
            → IsLeftByAppend self.old.count body.now (D.seen self.old.disk) (D.seen self.new.disk) }
        ensures err { OnErr result
            (self.new ≡ record self.old { disk = self.new.disk; down = true }) }

        ensures changes { D.changes self.new.disk ≤ D.changes self.old.disk + 4 }
        ensures same { IsSameDisk D.Disk self.old.disk self.new.disk }

        // If the log was up: which disk calls it makes, up to the first that is refused.
        ensures asks { self.old.down ≡ false → Asks D.Disk
            (AppendWithin (D.capacity self.old.disk) self.old.count body.now)
            (told_by result) self.old.disk self.new.disk }
    {
        if self.down {
            return Err(LogError::Down);
        }
        self.down = true;
        let count = self.count;
        if !has_room(self.disk.capacity(), count) {
            return Err(LogError::Full);
        }
        add(&mut self.disk, count, body)?;
        self.count = count + 1;
        self.down = false;
        Ok(count)
    }

    /// Reads body `n`, from 0, into the block and returns it. After an error the log is down.
    pub fn read<'b>(&mut self, n: u32, block: &'b mut Block) -> Result<Slot<'b>, LogError>
        requires { n < self.old.count }

        ensures body { IfOk result (λ slot.
            slice_get (kept (D.seen self.old.disk)) n ≡ Some slot.body.now) }
        ensures does { HasRead D.Disk self.old self.new result }
    {
        match self.read_slots(n, 1, block) {
            Ok(slots) => Ok(slots.get(0)),
            Err(error) => Err(error),
        }
    }

    /// Reads up to 32 slots from `n` on into the block, with one disk read, and returns them. After an
    /// error the log is down.
    pub fn read_block<'b>(&mut self, n: u32, block: &'b mut Block) -> Result<Slots<'b>, LogError>
        requires { n < self.old.count }

        ensures bodies { IfOk result (λ slots. (i : ℕ) → i < slots_from n self.old.count
            → slice_get (kept (D.seen self.old.disk)) (n + i) ≡ Some (body_of slots.bytes.now i)) }
        ensures bytes { IfOk result (λ slots. slots.bytes.now
            ≡ take (slot_length * slots_from n self.old.count) (drop (slot_length * n) (D.seen self.old.disk))) }
        ensures len { IfOk result (λ slots. length slots.bytes.now ≡ slot_length * slots_from n self.old.count) }
        ensures does { HasRead D.Disk self.old self.new result }
    {
        let many = (self.count - n).min(BLOCK_SLOTS as u32);
        self.read_slots(n, many, block)
    }

    /// Reads `many` slots from `n` on into the block and returns them.
    fn read_slots<'b>(
        &mut self,
        n: u32,
        many: u32,
        block: &'b mut Block,
    ) -> Result<Slots<'b>, LogError>
        requires within { n + many ≤ self.old.count }
        requires few { many ≤ block_slots }

        ensures bodies { IfOk result (λ slots. (i : ℕ) → i < many
            → slice_get (kept (D.seen self.old.disk)) (n + i) ≡ Some (body_of slots.bytes.now i)) }
        ensures bytes { IfOk result (λ slots. slots.bytes.now
            ≡ take (slot_length * many) (drop (slot_length * n) (D.seen self.old.disk))) }
        ensures len { IfOk result (λ slots. length slots.bytes.now ≡ slot_length * many) }
        ensures does { HasRead D.Disk self.old self.new result }
    {
        if self.down {
            return Err(LogError::Down);
        }
        self.down = true;
        let size = SLOT_LENGTH * many as usize;
        self.disk.read_at(SLOT * n, &mut block.bytes[..size])?;
        self.down = false;
        Ok(Slots {
            bytes: &block.bytes[..size],
        })
    }

    /// Arms the disk: chooses which of its calls fail from now on.
    pub fn arm(&mut self, arm: Arm)
        ensures log { self.new ≡ record self.old { disk = self.new.disk } }
        ensures seen { D.seen self.new.disk ≡ D.seen self.old.disk }
        ensures any_moment { LeavesOnly D.Disk self.old.disk self.new.disk
            (D.may_leave self.old.disk) }
        ensures crash { AddsNone (D.may_leave self.old.disk) (D.may_leave self.new.disk) }
        ensures crash_keeps { AddsNone (D.may_leave self.new.disk) (D.may_leave self.old.disk) }
        ensures failures { D.failures self.new.disk ≡ D.failures self.old.disk }
        ensures changes { D.changes self.new.disk ≡ D.changes self.old.disk }
        ensures capacity { D.capacity self.new.disk ≡ D.capacity self.old.disk }
        ensures arms { D.arms self.new.disk ≡ D.arms self.old.disk ++ arm ∷ [] }
        ensures told { D.told self.old.disk arm self.new.disk }
    {
        self.disk.arm(arm);
    }

    /// Returns the disk.
    pub(crate) fn disk(&self) -> &D
        ensures { result.now ≡ self.now.disk }
    {
        &self.disk
    }

    /// Closes the log and returns the disk.
    pub fn close(self) -> D
        ensures { result ≡ self.disk }
    {
        self.disk
    }
}
