//! A disk as a journal sees it: what a read gives, and what a crash may leave.
ghost use Rattle.std.specs.Prelude.{◌≡◌, ◌+◌, ◌<◌, ◌≤◌, List, [], ◌∷◌, ◌++◌, ℕ, Bool, length, take, drop, is_some, IfSome, OnOk, IsErrOf};
ghost use Rattle.c8_disk.specs.declared.disk.Arm.{Arm};
ghost use Rattle.c8_disk.specs.Disk.{DiskCall, Reading, Writing, Syncing, AddsNone, Only, Writes, WritesImages, Elapses, HasCause, longest_write};

use crate::DiskError;

/// The most bytes of one write.
pub const LONGEST_WRITE: usize = 144;

/// When the calls of a disk are to fail. A [`crate::MemDisk`] fails then. A [`crate::FileDisk`] only notes the value,
/// and fails when the system does.
#[derive(Clone, Copy, Debug, PartialEq, Eq, Hash)]
pub enum Arm {
    /// No call is to fail.
    Off,
    /// After this many more served calls that read, write or sync, each call fails, with no effect. A refused call is
    /// not served and does not count.
    Stop(u64),
    /// After this many more served calls, the next one fails, with no effect; later calls are served. A call that is
    /// refused as full does not count.
    Once(u64),
}

/// A list of bytes that grows by writes, and that a crash may tear.
pub trait Disk {
    /// The bytes that a read gives.
    ghost seen: { Self → List ℕ };

    /// The images that a crash at this moment may leave.
    ghost may_leave: { Self → List ℕ → Type 0 };

    /// The moment, a number that never falls. It does not count calls: one that changes no image may leave it as it is.
    ghost moment: { Self → ℕ };

    /// The images that a crash at some moment from that one on may have left, inside a call or between two.
    ghost left_since: { Self → ℕ → List ℕ → Type 0 };

    /// How often the disk has failed.
    ghost failures: { Self → ℕ };

    /// How many calls asked to write or sync, refused ones too. It measures neither time nor changes.
    ghost changes: { Self → ℕ };

    /// How many bytes fit.
    ghost capacity: { Self → ℕ };

    /// Whether disks of this kind lend their bytes in place.
    ghost lends: { Bool };

    /// The values given to `arm`, oldest first.
    ghost arms: { Self → List Arm };

    /// What a call that reads, writes or syncs does to the disk, by its answer. For callers that know the kind of disk.
    ghost does: { Self → DiskCall → Self → Type 0 };

    /// What `arm` does to the disk. For callers that know the kind of disk.
    ghost told: { Self → Arm → Self → Type 0 };

    /// Returns how many bytes there are: the length that a read sees.
    fn len(&self) -> u32
        ensures { result ≡ length (seen self.now) };

    /// Returns how many bytes fit. No call changes it.
    fn capacity(&self) -> u32
        ensures { result ≡ capacity self.now };

    /// Returns the bytes that a read gives, borrowed in place. A kind of disk that does not hold them in
    /// memory always returns `None`.
    ///
    /// This is not a read: it makes no call, never fails, and does not count for `arm`. So it does not
    /// show whether a read would fail; a caller that needs to know makes the read as well.
    fn held(&self) -> Option<&[u8]>
        ensures bytes { IfSome result (λ bytes. bytes.now ≡ seen self.now) }
        ensures lent { is_some result ≡ lends };

    /// Reads as many bytes as `buffer` has, from place `at` on. After an error the contents of `buffer`
    /// are undefined.
    fn read_at(&mut self, at: u32, buffer: &mut [u8]) -> Result<(), DiskError>
        requires { at + length buffer.old ≤ length (seen self.old) }
        ensures read { OnOk result
            (buffer.new ≡ take (length buffer.old) (drop at (seen self.old))) }
        ensures seen { seen self.new ≡ seen self.old }
        ensures crash { AddsNone (may_leave self.old) (may_leave self.new) }
        ensures time { Elapses (moment self.old) (moment self.new)
            (left_since self.old) (left_since self.new) (may_leave self.new) }
        ensures cause { HasCause (failures self.old) (failures self.new) result }
        ensures never_full { IsErrOf result DiskError.Full → ⊥ }
        ensures changes { changes self.new ≡ changes self.old }
        ensures capacity { capacity self.new ≡ capacity self.old }
        ensures arms { arms self.new ≡ arms self.old }
        ensures does { does self.old (Reading at (length buffer.old) result) self.new };

    /// Writes bytes over those from place `at` on, and past their end. Until a sync returns `Ok`, a
    /// crash may leave any bytes in this range. A write that returns `Failed` may have done any part of
    /// its work; one that returns `Full` did none.
    fn write_at(&mut self, at: u32, bytes: &[u8]) -> Result<(), DiskError>
        requires place { at ≤ length (seen self.old) }
        requires short { length bytes.now ≤ longest_write }
        ensures written { Writes at bytes.now (seen self.old) (seen self.new) result }
        ensures crash { WritesImages at (length bytes.now)
            (may_leave self.old) (may_leave self.new) result }
        ensures time { Elapses (moment self.old) (moment self.new)
            (left_since self.old) (left_since self.new) (may_leave self.new) }
        ensures cause { HasCause (failures self.old) (failures self.new) result }
        ensures full { IsErrOf result DiskError.Full → capacity self.old < at + length bytes.now }
        ensures changes { changes self.new ≡ changes self.old + 1 }
        ensures capacity { capacity self.new ≡ capacity self.old }
        ensures arms { arms self.new ≡ arms self.old }
        ensures does { does self.old (Writing at bytes.now result) self.new };

    /// Makes all writes durable. After `Ok` a crash leaves what a read gives.
    fn sync(&mut self) -> Result<(), DiskError>
        ensures durable { OnOk result (Only (seen self.old) (may_leave self.new)) }
        ensures seen { seen self.new ≡ seen self.old }
        ensures crash { AddsNone (may_leave self.old) (may_leave self.new) }
        ensures time { Elapses (moment self.old) (moment self.new)
            (left_since self.old) (left_since self.new) (may_leave self.new) }
        ensures cause { HasCause (failures self.old) (failures self.new) result }
        ensures never_full { IsErrOf result DiskError.Full → ⊥ }
        ensures changes { changes self.new ≡ changes self.old + 1 }
        ensures capacity { capacity self.new ≡ capacity self.old }
        ensures arms { arms self.new ≡ arms self.old }
        ensures does { does self.old (Syncing result) self.new };

    /// Chooses when calls fail from now on. Does not change what a read gives or what a crash may leave.
    fn arm(&mut self, arm: Arm)
        ensures seen { seen self.new ≡ seen self.old }
        ensures crash { AddsNone (may_leave self.old) (may_leave self.new) }
        ensures crash_keeps { AddsNone (may_leave self.new) (may_leave self.old) }
        ensures time { Elapses (moment self.old) (moment self.new)
            (left_since self.old) (left_since self.new) (may_leave self.new) }
        ensures failures { failures self.new ≡ failures self.old }
        ensures changes { changes self.new ≡ changes self.old }
        ensures capacity { capacity self.new ≡ capacity self.old }
        ensures arms { arms self.new ≡ arms self.old ++ arm ∷ [] }
        ensures told { told self.old arm self.new };

    /// What a read gives is one of the images.
    ghost reads_now: { (disk : Self) → may_leave disk (seen disk) };

    /// The present moment is among those since an earlier one.
    ghost counts_now: { (disk : Self) (t : ℕ) (image : List ℕ) → t ≤ moment disk
        → may_leave disk image → left_since disk t image };

    /// Since the present moment there is no other.
    ghost only_now: { (disk : Self) (image : List ℕ)
        → left_since disk (moment disk) image → may_leave disk image };
}
