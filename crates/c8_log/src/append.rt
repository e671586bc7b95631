//! The disk calls of an append.
ghost use Rattle.std.specs.Prelude.{◌≡◌, ◌≤◌, ◌<◌, ◌+◌, ◌*◌, ◌^◌, ◌++◌, [], ◌∷◌, OnOk, IsErrOf, IsTrue, ◌↔◌};
ghost use Rattle.c8_disk.specs.Disk.{HasCause};
ghost use Rattle.c8_disk.specs.Runs.{LeavesOnly, IsSameDisk};
ghost use Rattle.c8_disk.specs.Asks.{Asks};
ghost use Rattle.c8_log.specs.Asked.{Append};
ghost use Rattle.c8_log.specs.Slots.{kept, slot_length};
ghost use Rattle.c8_log.specs.Log.{IsUp, IsLeftByAppend, KeepsWithOrWithout, with_slot};

use crate::slot::{BODY_LENGTH, OPEN_GATE, SLOT, with_closed_gate};
use crate::write::write_and_sync;
use c8_disk::{Disk, DiskError};

/// Whether one slot more, and the gate after it, fit.
pub(crate) fn has_room(capacity: u32, count: u32) -> bool
    ensures { IsTrue result ↔ (slot_length * (count + 1) + 1 ≤ capacity) }
{
    u64::from(SLOT) * (u64::from(count) + 1) < u64::from(capacity)
}

/// Writes a body after the closed gate, then opens the gate.
pub(crate) fn add<D: Disk>(
    disk: &mut D,
    count: u32,
    body: &[u8; BODY_LENGTH],
) -> Result<(), DiskError>
    requires up { IsUp D.Disk disk.old count }
    requires room { slot_length * (count + 1) + 1 ≤ D.capacity disk.old }
    requires fits { slot_length * (count + 1) + 1 < 2 ^ 32 }

    ensures up { OnOk result (IsUp D.Disk disk.new (count + 1)) }
    ensures kept { OnOk result (kept (D.seen disk.new) ≡ kept (D.seen disk.old) ++ body.now ∷ []) }
    ensures seen { OnOk result (D.seen disk.new ≡ with_slot (D.seen disk.old) count body.now) }
    ensures any_moment { LeavesOnly D.Disk disk.old disk.new
        (KeepsWithOrWithout (kept (D.seen disk.old)) body.now) }
    ensures left { IsErrOf result DiskError.Failed
        → IsLeftByAppend count body.now (D.seen disk.old) (D.seen disk.new) }
    ensures cause { HasCause (D.failures disk.old) (D.failures disk.new) result }
    ensures never_full { IsErrOf result DiskError.Full → ⊥ }
    ensures changes { D.changes disk.new ≤ D.changes disk.old + 4 }
    ensures same { IsSameDisk D.Disk disk.old disk.new }
    ensures asks { Asks D.Disk (Append count body.now) result disk.old disk.new }
{
    c8_disk::laws::writes_keep_the_rest();
    let gate = SLOT * count;
    write_and_sync(disk, gate + 1, &with_closed_gate(body))?;
    write_and_sync(disk, gate, &[OPEN_GATE])
}
