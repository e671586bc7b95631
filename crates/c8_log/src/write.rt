//! The write that every change of a log is made of.
ghost use Rattle.std.specs.Prelude.{◌≡◌, ◌<◌, ◌≤◌, ◌+◌, length, OnOk, IsErrOf};
ghost use Rattle.c8_disk.specs.Disk.{Only, Writes, HasCause, longest_write};
ghost use Rattle.c8_disk.specs.Runs.{LeavesOnly, IsSameDisk};
ghost use Rattle.c8_disk.specs.Asks.{Asks};
ghost use Rattle.c8_log.specs.Asked.{WriteAndSync};
ghost use Rattle.c8_log.specs.checked.Written.{IsBeforeOrTorn};

use c8_disk::{Disk, DiskError};

/// Writes bytes and syncs them.
pub(crate) fn write_and_sync<D: Disk>(disk: &mut D, at: u32, bytes: &[u8]) -> Result<(), DiskError>
    requires place { at ≤ length (D.seen disk.old) }
    requires short { length bytes.now ≤ longest_write }

    ensures written { Writes at bytes.now (D.seen disk.old) (D.seen disk.new) result }
    ensures durable { OnOk result (Only (D.seen disk.new) (D.may_leave disk.new)) }
    ensures any_moment { LeavesOnly D.Disk disk.old disk.new
        (IsBeforeOrTorn at (length bytes.now) (D.may_leave disk.old)) }

    ensures cause { HasCause (D.failures disk.old) (D.failures disk.new) result }
    ensures full { IsErrOf result DiskError.Full → D.capacity disk.old < at + length bytes.now }
    ensures changes { D.changes disk.new ≤ D.changes disk.old + 2 }
    ensures same { IsSameDisk D.Disk disk.old disk.new }
    ensures asks { Asks D.Disk (WriteAndSync at bytes.now) result disk.old disk.new }
{
    // For the proof: a whole write that was not synced is a torn one.
    c8_disk::laws::writes_keep_the_rest();
    disk.write_at(at, bytes)?;
    disk.sync()
}
