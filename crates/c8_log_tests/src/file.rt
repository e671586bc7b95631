//! A disk in a file of a system that stands in for the operating system, by steps.
mod fake;
mod real;
mod system;

use crate::calls::{self, Call};
use crate::texts::shows;
use c8_disk::{DiskError, FileDisk, FileError};
use fake::{FakeFile, FakeSystem, Fault, ROOM};
use std::alloc::Global;

/// What is done, and its answer.
#[derive(Clone, Copy)]
enum Step {
    /// A case begins, with a file that holds these bytes for good, or with a new one.
    Case(&'static str, &'static str),
    /// Opens the file as a disk with this capacity: why that is refused.
    Open(u32, Option<FileError>),
    /// Opens the disk once more: it has these bytes and no others.
    Reads(&'static str),
    /// After this many more calls of the system the next one has this fault.
    Fail(u32, Fault),
    /// The power goes.
    LosePower,
    /// The system has had this many calls.
    Calls(u32),
    IsDown(bool),
    Do(Call),
}

const FAILED: Option<DiskError> = Some(DiskError::Failed);

const EIO: Fault = Fault::Error(libc::EIO);

const INTERRUPTED: Fault = Fault::Error(libc::EINTR);

/// The calls of an opening, from 0: lock, length, sync, copies dropped, folder synced, read. A write
/// and a sync make one each.
static STEPS: [Step; 157] = [
    Step::Case("an opening makes six calls", "abcde"),
    Step::Open(16, None),
    Step::Calls(6),
    Step::IsDown(false),
    Step::Do(Call::Held("abcde")),
    Step::Case("each call of an opening may fail: the first", "abcde"),
    Step::Fail(0, EIO),
    Step::Open(16, Some(FileError::Failed)),
    Step::Calls(1),
    Step::Reads("abcde"),
    Step::Case("the second", "abcde"),
    Step::Fail(1, EIO),
    Step::Open(16, Some(FileError::Failed)),
    Step::Calls(2),
    Step::Reads("abcde"),
    Step::Case("the third", "abcde"),
    Step::Fail(2, EIO),
    Step::Open(16, Some(FileError::Failed)),
    Step::Calls(3),
    Step::Reads("abcde"),
    Step::Case("the fourth", "abcde"),
    Step::Fail(3, EIO),
    Step::Open(16, Some(FileError::Failed)),
    Step::Calls(4),
    Step::Reads("abcde"),
    Step::Case("the fifth", "abcde"),
    Step::Fail(4, EIO),
    Step::Open(16, Some(FileError::Failed)),
    Step::Calls(5),
    Step::Reads("abcde"),
    Step::Case("the sixth", "abcde"),
    Step::Fail(5, EIO),
    Step::Open(16, Some(FileError::Failed)),
    Step::Calls(6),
    Step::Reads("abcde"),
    // What is read after an opening is what is left if the power goes then.
    // The process ends before it syncs: what it wrote is in memory, and the opening makes it
    // durable.
    Step::Case("what an opening reads is durable", "abcde"),
    Step::Open(16, None),
    Step::Do(Call::Write(1, "XY", None)),
    Step::Reads("aXYde"),
    Step::LosePower,
    Step::Reads("aXYde"),
    // The sync fails: what it was to write is in memory alone, and is not believed.
    Step::Case("the sync fails", "abcde"),
    Step::Open(16, None),
    Step::Fail(1, EIO),
    Step::Do(Call::Write(1, "XY", None)),
    Step::Do(Call::Sync(FAILED)),
    Step::Reads("abcde"),
    Step::LosePower,
    Step::Reads("abcde"),
    // The write fails after its first byte.
    Step::Case("the write fails", "abcde"),
    Step::Open(16, None),
    Step::Fail(0, EIO),
    Step::Do(Call::Write(1, "XY", FAILED)),
    Step::Reads("aXcde"),
    Step::LosePower,
    Step::Reads("aXcde"),
    Step::Case("what was synced is durable and so is the name", ""),
    Step::Open(16, None),
    Step::Do(Call::Held("")),
    Step::Do(Call::Write(0, "abcde", None)),
    Step::Do(Call::Sync(None)),
    Step::LosePower,
    Step::Reads("abcde"),
    Step::Case("a read asks nothing of the system", "abcde"),
    Step::Open(16, None),
    Step::Do(Call::Read(1, "bcd", None)),
    Step::Do(Call::Held("abcde")),
    Step::Do(Call::Write(1, "XY", None)),
    Step::Do(Call::Held("aXYde")),
    Step::Do(Call::Sync(None)),
    Step::Fail(0, EIO),
    Step::Do(Call::Read(1, "XYd", None)),
    Step::Calls(8),
    Step::IsDown(false),
    // A disk that failed is down until the next opening, and asks nothing of the system.
    Step::Case("a write failed", "abcde"),
    Step::Open(16, None),
    Step::Do(Call::Read(1, "bcd", None)),
    Step::Do(Call::Write(1, "XY", None)),
    Step::Do(Call::Sync(None)),
    Step::Fail(0, EIO),
    Step::Do(Call::Write(1, "XY", FAILED)),
    Step::Calls(9),
    Step::IsDown(true),
    Step::Do(Call::Held("aXYde")),
    Step::Do(Call::Read(1, "XYd", FAILED)),
    Step::IsDown(true),
    Step::Do(Call::Write(1, "XY", FAILED)),
    Step::IsDown(true),
    Step::Do(Call::Sync(FAILED)),
    Step::Calls(9),
    Step::Open(16, None),
    Step::IsDown(false),
    Step::Case("a sync failed", "abcde"),
    Step::Open(16, None),
    Step::Do(Call::Read(1, "bcd", None)),
    Step::Do(Call::Write(1, "XY", None)),
    Step::Do(Call::Sync(None)),
    Step::Fail(0, EIO),
    Step::Do(Call::Sync(FAILED)),
    Step::Calls(9),
    Step::IsDown(true),
    Step::Do(Call::Read(1, "XYd", FAILED)),
    Step::IsDown(true),
    Step::Do(Call::Write(1, "XY", FAILED)),
    Step::IsDown(true),
    Step::Do(Call::Sync(FAILED)),
    Step::Calls(9),
    Step::Open(16, None),
    Step::IsDown(false),
    // An interrupted read or write is made again, and so is the rest of a short one, unless it moved nothing.
    Step::Case("an interrupted read goes on", "abcde"),
    Step::Fail(5, INTERRUPTED),
    Step::Open(16, None),
    Step::Do(Call::Held("abcde")),
    Step::Case("an interrupted write goes on", "abcde"),
    Step::Open(16, None),
    Step::Fail(0, INTERRUPTED),
    Step::Do(Call::Write(1, "XY", None)),
    Step::Do(Call::Sync(None)),
    Step::LosePower,
    Step::Reads("aXYde"),
    Step::Case("a read that moves nothing fails", "abcde"),
    Step::Fail(5, Fault::Moves(0)),
    Step::Open(16, Some(FileError::Failed)),
    Step::Reads("abcde"),
    Step::Case("a short read goes on", "abcde"),
    Step::Fail(5, Fault::Moves(4)),
    Step::Open(16, None),
    Step::Do(Call::Held("abcde")),
    Step::Case("a write that moves nothing fails", "abcde"),
    Step::Open(16, None),
    Step::Fail(0, Fault::Moves(0)),
    Step::Do(Call::Write(1, "XY", FAILED)),
    Step::IsDown(true),
    Step::Reads("abcde"),
    Step::Case("a short write goes on", "abcde"),
    Step::Open(16, None),
    Step::Fail(0, Fault::Moves(1)),
    Step::Do(Call::Write(1, "XY", None)),
    Step::Do(Call::Sync(None)),
    Step::LosePower,
    Step::Reads("aXYde"),
    Step::Case("an interrupted sync is a failure", "abcde"),
    Step::Open(16, None),
    Step::Do(Call::Write(1, "XY", None)),
    Step::Fail(0, INTERRUPTED),
    Step::Do(Call::Sync(FAILED)),
    Step::IsDown(true),
    // Full is the disk's own capacity alone.
    Step::Case("a full device is a failure", "abcde"),
    Step::Open(16, None),
    Step::Fail(0, Fault::Error(libc::ENOSPC)),
    Step::Do(Call::Write(1, "XY", FAILED)),
    Step::IsDown(true),
    Step::Case("a full file is no failure", "0123456789abcdef"),
    Step::Open(16, None),
    Step::Do(Call::Write(16, "g", Some(DiskError::Full))),
    Step::IsDown(false),
    Step::Open(15, Some(FileError::Full)),
];

fn steps() -> &'static [Step] {
    &STEPS
}

fn open(
    alloc: Global,
    system: &FakeSystem,
    capacity: u32,
) -> Result<FileDisk<FakeFile<'_>>, FileError> {
    let bytes = Vec::with_capacity(alloc, capacity as usize)?;
    FileDisk::over(FakeFile { system }, bytes, capacity)
}

/// The system, and the disk that is open in its file.
#[derive(Drop)]
struct Play<'a> {
    system: &'a FakeSystem,
    disk: Option<FileDisk<FakeFile<'a>>>,
}

impl Play<'_> {
    /// Opens the disk once more. Whether that has this answer.
    fn opens(&mut self, alloc: Global, capacity: u32, wanted: Option<FileError>) -> bool {
        match open(alloc, self.system, capacity) {
            Ok(disk) => {
                self.disk = Some(disk);
                wanted.is_none()
            }
            Err(error) => {
                self.disk = None;
                wanted == Some(error)
            }
        }
    }

    /// Whether a call of the disk has the answer that it names.
    fn does(&mut self, call: Call) -> bool {
        match &mut self.disk {
            Some(disk) => calls::holds(disk, call),
            None => false,
        }
    }

    /// Opens the disk once more. Whether it has these bytes and no others.
    fn reads(&mut self, alloc: Global, text: &'static str) -> bool {
        self.opens(alloc, ROOM as u32, None)
            && self.does(Call::Held(text))
            && self.does(Call::Read(0, text, None))
    }

    fn is_down(&self) -> Option<bool> {
        match &self.disk {
            Some(disk) => Some(disk.is_down()),
            None => None,
        }
    }

    /// Whether a step has its answer.
    fn holds(&mut self, alloc: Global, step: Step) -> bool {
        match step {
            Step::Case(_, text) => {
                self.disk = None;
                self.system.begin(text.as_bytes());
                true
            }
            Step::Open(capacity, wanted) => self.opens(alloc, capacity, wanted),
            Step::Reads(text) => self.reads(alloc, text),
            Step::Fail(calls, fault) => {
                self.system.fail_with(calls, fault);
                true
            }
            Step::LosePower => {
                self.system.lose_power();
                true
            }
            Step::Calls(calls) => self.system.calls.get() == calls,
            Step::IsDown(is_down) => self.is_down() == Some(is_down),
            Step::Do(call) => self.does(call),
        }
    }
}

/// Whether a disk shows its length, its capacity and whether it is down.
fn is_shown(alloc: Global, system: &FakeSystem) -> bool {
    match open(alloc, system, ROOM as u32) {
        Ok(disk) => shows(
            alloc,
            disk,
            "FileDisk { length: 5, capacity: 16, down: false }",
        ),
        Err(_) => false,
    }
}

#[test]
fn each_step_is_answered_as_it_says(rt: HostRuntime) {
    let system = FakeSystem::new();
    system.begin(b"abcde");
    assert!(rt; is_shown(rt.alloc(), &system));
    let mut play = Play {
        system: &system,
        disk: None,
    };
    for (n, step) in steps().iter().enumerate() {
        assert!(rt; play.holds(rt.alloc(), *step), "step {n}");
    }
}
