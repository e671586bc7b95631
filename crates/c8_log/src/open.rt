//! The disk calls of an opening: a sync, the search for the end, and the repair of the gate there.
ghost use Rattle.std.specs.Prelude.{◌≡◌, ◌<◌, ◌≤◌, ◌+◌, ◌*◌, ◌^◌, true, false, length, IfOk, OnOk, IfErr, IsErrOf};
ghost use Rattle.c8_disk.specs.Disk.{Only, HasCause};
ghost use Rattle.c8_disk.specs.Runs.{LeavesOnly, IsSameDisk};
ghost use Rattle.c8_disk.specs.Asks.{Asks, answer_of};
ghost use Rattle.c8_log.specs.Asked.{Repair, Opening};
ghost use Rattle.c8_log.specs.Slots.{kept, kept_count, slot_length};
ghost use Rattle.c8_log.specs.Log.{IsUp, KeepsOneOf, IsLeftByOpening, has_closed_gate, repaired, log_error};

use crate::end::{End, find_end};
use crate::slot::{CLOSED_GATE, SLOT};
use crate::write::write_and_sync;
use c8_disk::{Disk, DiskError};

/// Syncs and repairs a disk, and returns how many slots it keeps.
pub(crate) fn settle<D: Disk>(disk: &mut D) -> Result<u32, DiskError>
    ensures up { IfOk result (IsUp D.Disk disk.new) }
    ensures repaired { OnOk result (D.seen disk.new ≡ repaired (D.seen disk.old)) }
    ensures left { IfErr result (λ error.
        IsLeftByOpening (log_error error) (D.seen disk.old) (D.seen disk.new)) }
    ensures kept { kept (D.seen disk.new) ≡ kept (D.seen disk.old) }
    ensures any_moment { LeavesOnly D.Disk disk.old disk.new (KeepsOneOf (D.may_leave disk.old)) }
    ensures cause { HasCause (D.failures disk.old) (D.failures disk.new) result }
    ensures full { IsErrOf result DiskError.Full → (has_closed_gate (D.seen disk.old) ≡ false)
        × (D.capacity disk.old < slot_length * length (kept (D.seen disk.old)) + 1) }
    ensures changes { D.changes disk.new ≤ D.changes disk.old + 3 }
    ensures no_repair { has_closed_gate (D.seen disk.old) ≡ true
        → D.changes disk.new ≡ D.changes disk.old + 1 }
    ensures same { IsSameDisk D.Disk disk.old disk.new }
    ensures asks { Asks D.Disk (Opening D.lends (D.seen disk.old)) (answer_of result) disk.old disk.new }
{
    disk.sync()?;
    let end = find_end(disk)?;
    repair(disk, end)?;
    Ok(end.count)
}

/// Closes the gate after the kept slots, unless it is closed.
fn repair<D: Disk>(disk: &mut D, end: End) -> Result<(), DiskError>
    requires count { end.count ≡ kept_count (D.seen disk.old) }
    requires closed { end.closed ≡ has_closed_gate (D.seen disk.old) }
    requires fits { slot_length * end.count < 2 ^ 32 }
    requires durable { Only (D.seen disk.old) (D.may_leave disk.old) }

    ensures repaired { OnOk result (D.seen disk.new ≡ repaired (D.seen disk.old)) }
    ensures left { IfErr result (λ error.
        IsLeftByOpening (log_error error) (D.seen disk.old) (D.seen disk.new)) }
    ensures up { OnOk result (IsUp D.Disk disk.new end.count) }
    ensures any_moment { LeavesOnly D.Disk disk.old disk.new
        (λ image. kept image ≡ kept (D.seen disk.old)) }
    ensures cause { HasCause (D.failures disk.old) (D.failures disk.new) result }
    ensures full { IsErrOf result DiskError.Full → (has_closed_gate (D.seen disk.old) ≡ false)
        × (D.capacity disk.old < slot_length * length (kept (D.seen disk.old)) + 1) }
    ensures changes { D.changes disk.new ≤ D.changes disk.old + 2 }
    ensures no_repair { end.closed ≡ true → D.changes disk.new ≡ D.changes disk.old }
    ensures same { IsSameDisk D.Disk disk.old disk.new }
    ensures asks { Asks D.Disk (Repair (D.seen disk.old)) result disk.old disk.new }
{
    c8_disk::laws::writes_keep_the_rest();
    if end.closed {
        return Ok(());
    }
    write_and_sync(disk, SLOT * end.count, &[CLOSED_GATE])
}
