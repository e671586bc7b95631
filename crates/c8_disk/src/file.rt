//! A disk in a file of the operating system.
ghost use Rattle.std.specs.Prelude.{◌≡◌, ◌≤◌, ◌<◌, ◌+◌, ◌↔◌, [], ◌∷◌, ◌++◌, true, false, length, take, drop, vec_len, vec_capacity, is_some, IfSome, IfOk, IfErr, OnOk, OnErr, IsErrOf};
ghost use Rattle.c8_disk.specs.Disk.{Reading, Writing, Syncing, Only, AddsNone, Writes, WritesImages, Elapses, HasCause, longest_write};
ghost use Rattle.c8_disk.specs.Past.{IsImage, LeftSince, AddsWrite};
ghost use Rattle.c8_disk.specs.checked.PastLaws.{reads_image, counts, only};

mod health;
mod held;
mod system;

use crate::call::Call;
use crate::{Arm, Disk, DiskError, FileError, GhostList};
use health::Health;
use held::Held;
use std::alloc::Global;
use std::fs::File;
use std::rt::Files;
use std::{fmt, io};
pub use system::{OpenedFile, SystemFile};

/// A disk in a file.
///
/// The contents of the file are also kept in memory, and reads are served from there: the bytes at the opening, with
/// all writes since. The file is locked, so no other disk opens it. After a write or a sync failed, every call fails
/// until the file is opened again. No call takes memory: the opening reserves the whole capacity as address space, and
/// only as much becomes resident as the file is long.
///
/// One premise is not proved: that a crash leaves in the file what the model of a disk says. So a device must not
/// damage the other bytes of a sector in which one byte is written.
#[derive(Drop)]
pub struct FileDisk<S = OpenedFile> {
    file: S,
    held: Held,
    health: Health,
    asked: GhostList<()>,
    arms: GhostList<Arm>,
}

/// Prints the length, the capacity and whether the disk is down.
impl<S> fmt::Debug for FileDisk<S> {
    fn fmt<W: fmt::Write>(&self, f: &mut fmt::Formatter<W>) -> fmt::Result {
        let length = self.held.bytes.len();
        let capacity = self.held.room;
        let down = self.health.is_down;
        write!(
            f,
            "FileDisk {{ length: {length}, capacity: {capacity}, down: {down} }}"
        )
    }
}

/// Reserves the memory for all that a disk may hold.
fn reserve(alloc: Global, capacity: u32) -> Result<Vec<u8>, FileError>
    ensures room { IfOk result (λ bytes. capacity ≤ vec_capacity bytes) }
    ensures memory { IfErr result (λ error. error ≡ FileError.Memory) }
{
    Ok(Vec::with_capacity(alloc, capacity as usize)?)
}

/// Why a file was not locked: another disk has it, or the call failed.
fn unlocked(error: io::Error) -> FileError {
    match error.kind() {
        io::ErrorKind::WouldBlock => FileError::Locked,
        _ => FileError::Failed,
    }
}

/// Locks a file, makes its contents durable, and reads it once, from the device and not from the system's cache.
fn read_durable<S: SystemFile>(
    file: &S,
    bytes: &mut Vec<u8>,
    capacity: u32,
) -> Result<(), FileError>
    requires { capacity ≤ vec_capacity bytes.old }
    ensures within { OnOk result (vec_len bytes.new ≤ capacity) }
    ensures room { vec_capacity bytes.old ≤ vec_capacity bytes.new }
{
    if let Err(error) = file.try_lock() {
        return Err(unlocked(error));
    }
    let length = file.len()?;
    if length > u64::from(capacity) {
        return Err(FileError::Full);
    }
    file.sync_all()?;
    file.drop_copies()?;
    file.sync_folder()?;
    bytes.resize(length as usize, 0)?;
    file.read_exact_at(bytes, 0)?;
    Ok(())
}

impl FileDisk {
    ghost use Rattle.c8_disk.specs.File.{file_bytes, file_first, file_calls, file_images, file_room, file_is_down};

    /// Opens the file at this path as a disk with room for `capacity` bytes, and makes the file if there is none. The
    /// file stays locked as long as the disk lives. Its contents and its name are made durable, and it is read once,
    /// from the device.
    ///
    /// `Failed`: it cannot be opened to read and write, is not a regular file, or a call of the system failed.
    /// `Locked`: another disk has it open. `Full`: it is longer than `capacity`. `Memory`: the memory was refused, and no
    /// file was made. None of these changes a byte of the file.
    pub fn open<R: Files<File = File> + AllocGlobal>(
        rt: &R,
        path: &str,
        capacity: u32,
    ) -> Result<FileDisk, FileError>
        ensures room { IfOk result (λ disk. file_room disk ≡ capacity) }
        ensures within { IfOk result (λ disk. length (file_bytes disk) ≤ capacity) }
        ensures settled { IfOk result (λ disk. Only (file_bytes disk) (file_images disk)) }
        ensures first { IfOk result (λ disk. file_first disk ≡ file_bytes disk) }
        ensures calls { IfOk result (λ disk. file_calls disk ≡ []) }
        ensures down { IfOk result (λ disk. file_is_down disk ≡ false) }
    {
        let bytes = reserve(rt.alloc(), capacity)?;
        FileDisk::over(OpenedFile::open(rt, path)?, bytes, capacity)
    }
}

impl<S: SystemFile> FileDisk<S> {
    ghost use Rattle.c8_disk.specs.File.{file_bytes, file_first, file_calls, file_images, file_room, file_is_down};

    /// Makes a disk of a file that is open, for callers with a file layer of their own. `bytes` gives the memory for
    /// all that the disk may hold; its contents do not matter. Locks the file, makes its contents and its name durable,
    /// and reads it once. It takes no memory.
    ///
    /// `Failed`: a call of the file failed. `Locked`: another disk has it open. `Full`: it is longer than `capacity`. None
    /// of these changes a byte of the file.
    pub fn over(file: S, bytes: Vec<u8>, capacity: u32) -> Result<FileDisk<S>, FileError>
        requires { capacity ≤ vec_capacity bytes }
        ensures room { IfOk result (λ disk. file_room disk ≡ capacity) }
        ensures within { IfOk result (λ disk. length (file_bytes disk) ≤ capacity) }
        ensures settled { IfOk result (λ disk. Only (file_bytes disk) (file_images disk)) }
        ensures first { IfOk result (λ disk. file_first disk ≡ file_bytes disk) }
        ensures calls { IfOk result (λ disk. file_calls disk ≡ []) }
        ensures down { IfOk result (λ disk. file_is_down disk ≡ false) }
    {
        let mut bytes = bytes;
        read_durable(&file, &mut bytes, capacity)?;
        Ok(FileDisk {
            file,
            held: Held::new(bytes, capacity),
            health: Health {
                is_down: false,
                failures: GhostList::new(),
            },
            asked: GhostList::new(),
            arms: GhostList::new(),
        })
    }

    /// Returns whether the disk is down: a write or a sync failed, and each call fails until the file is opened again.
    pub fn is_down(&self) -> bool
        ensures { result ≡ file_is_down self.now }
    {
        self.health.is_down
    }
}

impl<S: SystemFile> Disk for FileDisk<S> {
    ghost use Rattle.c8_disk.specs.File.{file_bytes, file_first, file_calls, file_images, file_moment, file_left_since, file_room, file_is_down, file_failures, file_changes, file_arms, IsFileCall, IsFileTold};

    ghost seen = { λ d. d.held.bytes.items };

    ghost may_leave = { λ d. IsImage d.held.first.value.items d.held.calls.items };

    ghost moment = { λ d. length d.held.calls.items };

    ghost left_since = { λ d. LeftSince d.held.first.value.items d.held.calls.items };

    ghost failures = { λ d. length d.health.failures.items };

    ghost changes = { λ d. length d.asked.items };

    ghost capacity = { λ d. d.held.room };

    ghost lends = { true };

    ghost arms = { λ d. d.arms.items };

    ghost does = { λ d call e. IsFileCall d call e };

    ghost told = { λ d arm e. IsFileTold d arm e };

    ghost reads_now = { λ d. reads_image d.held.first.value.items d.held.calls.items
        d.held.bytes.items d.held.lawful d.held.replayed };

    ghost counts_now = { λ d. counts d.held.first.value.items d.held.calls.items };

    ghost only_now = { λ d. only d.held.first.value.items d.held.calls.items };

    fn len(&self) -> u32 {
        self.held.bytes.len() as u32
    }

    fn capacity(&self) -> u32 {
        self.held.room
    }

    /// Lends all bytes, even if the disk is down.
    fn held(&self) -> Option<&[u8]>
        ensures bytes { IfSome result (λ bytes. bytes.now ≡ file_bytes self.now) }
        ensures lent { is_some result ≡ true }
    {
        Some(&self.held.bytes)
    }

    fn read_at(&mut self, at: u32, buffer: &mut [u8]) -> Result<(), DiskError>
        requires { at + length buffer.old ≤ length (file_bytes self.old) }
        ensures read { OnOk result
            (buffer.new ≡ take (length buffer.old) (drop at (file_bytes self.old))) }
        ensures seen { file_bytes self.new ≡ file_bytes self.old }
        ensures crash { AddsNone (file_images self.old) (file_images self.new) }
        ensures time { Elapses (file_moment self.old) (file_moment self.new)
            (file_left_since self.old) (file_left_since self.new) (file_images self.new) }
        ensures cause { HasCause (file_failures self.old) (file_failures self.new) result }
        ensures never_full { IsErrOf result DiskError.Full → ⊥ }
        ensures changes { file_changes self.new ≡ file_changes self.old }
        ensures capacity { file_room self.new ≡ file_room self.old }
        ensures arms { file_arms self.new ≡ file_arms self.old }
        ensures does { IsFileCall self.old (Reading at (length buffer.old) result) self.new }

        // A read fails exactly if the disk is down.
        ensures down { IsErrOf result DiskError.Failed ↔ (file_is_down self.old ≡ true) }
        ensures stays { file_is_down self.new ≡ file_is_down self.old }
        ensures first { file_first self.new ≡ file_first self.old }
        ensures calls { file_calls self.new ≡ file_calls self.old }
    {
        if self.health.is_down {
            self.health.fail();
            return Err(DiskError::Failed);
        }
        let place = at as usize;
        buffer.copy_from_slice(&self.held.bytes[place..place + buffer.len()]);
        Ok(())
    }

    fn write_at(&mut self, at: u32, bytes: &[u8]) -> Result<(), DiskError>
        requires place { at ≤ length (file_bytes self.old) }
        requires short { length bytes.now ≤ longest_write }
        ensures written { Writes at bytes.now (file_bytes self.old) (file_bytes self.new) result }
        ensures crash { WritesImages at (length bytes.now)
            (file_images self.old) (file_images self.new) result }
        ensures time { Elapses (file_moment self.old) (file_moment self.new)
            (file_left_since self.old) (file_left_since self.new) (file_images self.new) }
        ensures cause { HasCause (file_failures self.old) (file_failures self.new) result }
        ensures full { IsErrOf result DiskError.Full
            ↔ ((file_is_down self.old ≡ false) × (file_room self.old < at + length bytes.now)) }
        ensures changes { file_changes self.new ≡ file_changes self.old + 1 }
        ensures capacity { file_room self.new ≡ file_room self.old }
        ensures arms { file_arms self.new ≡ file_arms self.old }
        ensures does { IsFileCall self.old (Writing at bytes.now result) self.new }

        // A call that fails takes the disk down, and a disk that is down fails each call.
        ensures down { IsErrOf result DiskError.Failed ↔ (file_is_down self.new ≡ true) }
        ensures stays_down { file_is_down self.old ≡ true → IsErrOf result DiskError.Failed }
        ensures first { file_first self.new ≡ file_first self.old }

        // A failed write is noted too, since it may be torn, but not one that was not tried.
        ensures noted { OnOk result
            (AddsWrite at bytes.now (file_calls self.old) (file_calls self.new)) }
        ensures noted_failed { IsErrOf result DiskError.Failed → file_is_down self.old ≡ false
            → AddsWrite at bytes.now (file_calls self.old) (file_calls self.new) }
        ensures unnoted_full { IsErrOf result DiskError.Full
            → file_calls self.new ≡ file_calls self.old }
        ensures unnoted_down { file_is_down self.old ≡ true
            → file_calls self.new ≡ file_calls self.old }
    {
        self.asked = self.asked.and(&());
        if self.health.is_down {
            self.health.fail();
            return Err(DiskError::Failed);
        }
        if bytes.len() > (self.held.room - at) as usize {
            return Err(DiskError::Full);
        }
        self.held.note_write(at, bytes);
        if self.file.write_all_at(bytes, u64::from(at)).is_err() {
            self.health.fail();
            return Err(DiskError::Failed);
        }
        Ok(())
    }

    fn sync(&mut self) -> Result<(), DiskError>
        ensures durable { OnOk result (Only (file_bytes self.old) (file_images self.new)) }
        ensures seen { file_bytes self.new ≡ file_bytes self.old }
        ensures crash { AddsNone (file_images self.old) (file_images self.new) }
        ensures time { Elapses (file_moment self.old) (file_moment self.new)
            (file_left_since self.old) (file_left_since self.new) (file_images self.new) }
        ensures cause { HasCause (file_failures self.old) (file_failures self.new) result }
        ensures never_full { IsErrOf result DiskError.Full → ⊥ }
        ensures changes { file_changes self.new ≡ file_changes self.old + 1 }
        ensures capacity { file_room self.new ≡ file_room self.old }
        ensures arms { file_arms self.new ≡ file_arms self.old }
        ensures does { IsFileCall self.old (Syncing result) self.new }

        // A call that fails takes the disk down, and a disk that is down fails each call. A failed sync is not noted.
        ensures down { IsErrOf result DiskError.Failed ↔ (file_is_down self.new ≡ true) }
        ensures stays_down { file_is_down self.old ≡ true → IsErrOf result DiskError.Failed }
        ensures first { file_first self.new ≡ file_first self.old }
        ensures noted { OnOk result (file_calls self.new ≡ file_calls self.old ++ Call.Sync ∷ []) }
        ensures unnoted { OnErr result (file_calls self.new ≡ file_calls self.old) }
    {
        self.asked = self.asked.and(&());
        if self.health.is_down || self.file.sync_data().is_err() {
            self.health.fail();
            return Err(DiskError::Failed);
        }
        self.held.note_sync();
        Ok(())
    }

    /// Notes the value and changes nothing else: a file fails when the system does.
    fn arm(&mut self, arm: Arm)
        ensures seen { file_bytes self.new ≡ file_bytes self.old }
        ensures crash { AddsNone (file_images self.old) (file_images self.new) }
        ensures crash_keeps { AddsNone (file_images self.new) (file_images self.old) }
        ensures time { Elapses (file_moment self.old) (file_moment self.new)
            (file_left_since self.old) (file_left_since self.new) (file_images self.new) }
        ensures failures { file_failures self.new ≡ file_failures self.old }
        ensures changes { file_changes self.new ≡ file_changes self.old }
        ensures capacity { file_room self.new ≡ file_room self.old }
        ensures arms { file_arms self.new ≡ file_arms self.old ++ arm ∷ [] }
        ensures told { IsFileTold self.old arm self.new }
        ensures down { file_is_down self.new ≡ file_is_down self.old }
        ensures first { file_first self.new ≡ file_first self.old }
        ensures calls { file_calls self.new ≡ file_calls self.old }
    {
        self.arms = self.arms.and(&arm);
    }
}
