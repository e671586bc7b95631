//! A disk in a real file, by steps.
use crate::calls::{self, Call};
use c8_disk::{FileDisk, FileError};
use std::fs::{self, File, Permissions};
use std::os::unix::fs::{PermissionsExt, symlink};

const FILE: &str = "c8_disk_test.bytes";

const FOLDER: &str = "c8_disk_test_folder";

const INSIDE: &str = "c8_disk_test_folder/file";

const LINK: &str = "c8_disk_test_link";

/// What is done, and its answer.
#[derive(Clone, Copy)]
enum Step {
    /// A case begins: the files are removed.
    Case(&'static str),
    /// Another hand writes the file.
    Put(&'static str, &'static str),
    /// The file holds these bytes and no others.
    Holds(&'static str, &'static str),
    MakeFolder,
    /// Makes the link, to the file in the folder.
    MakeLink,
    RemoveFolder,
    /// Nobody may write the file, but for root.
    Protect(&'static str),
    /// Opens the file as a disk, in the place of the disk before.
    Open(&'static str, u32),
    /// The file is refused as a disk, for this.
    Refused(&'static str, u32, FileError),
    /// The file is refused as a disk, but for a user who may write it.
    RefusedUnlessRoot(&'static str),
    Close,
    Do(Call),
}

static STEPS: [Step; 39] = [
    Step::Case("a file keeps what was written"),
    Step::Open(FILE, 8),
    Step::Do(Call::Write(0, "abcde", None)),
    Step::Do(Call::Sync(None)),
    // The file is this disk's alone.
    Step::Refused(FILE, 8, FileError::Locked),
    Step::Close,
    Step::Open(FILE, 8),
    Step::Do(Call::Read(1, "bcd", None)),
    Step::Case("what another hand writes is found by the next opening"),
    Step::Put(FILE, "abcde"),
    Step::Open(FILE, 8),
    Step::Put(FILE, "aBcde"),
    Step::Do(Call::Read(1, "bcd", None)),
    Step::Do(Call::Sync(None)),
    Step::Close,
    Step::Open(FILE, 8),
    Step::Do(Call::Read(1, "Bcd", None)),
    Step::Close,
    Step::Refused(FILE, 4, FileError::Full),
    Step::Holds(FILE, "aBcde"),
    Step::Case("a path may have a folder and a link"),
    Step::MakeFolder,
    Step::MakeLink,
    Step::Open(LINK, 8),
    Step::Do(Call::Write(0, "abc", None)),
    Step::Refused(INSIDE, 8, FileError::Locked),
    Step::Close,
    Step::Holds(INSIDE, "abc"),
    Step::Refused(FOLDER, 8, FileError::Failed),
    Step::RemoveFolder,
    Step::Refused(INSIDE, 8, FileError::Failed),
    Step::Case("what is no file to read and write is refused"),
    Step::Put(FILE, "abc"),
    Step::Protect(FILE),
    Step::RefusedUnlessRoot(FILE),
    Step::Holds(FILE, "abc"),
    // Nobody may write a program that runs, root or not.
    Step::Refused("/proc/self/exe", 8, FileError::Failed),
    Step::Refused("/dev/null", 8, FileError::Failed),
    Step::Case(""),
];

fn steps() -> &'static [Step] {
    &STEPS
}

fn remove_all(rt: &HostRuntime) {
    let _ = fs::remove_file(rt, FILE);
    let _ = fs::remove_file(rt, LINK);
    let _ = fs::remove_dir_all(rt, FOLDER);
}

fn protect(rt: &HostRuntime, path: &str) -> bool {
    fs::set_permissions(rt, path, Permissions::from_mode(0o444)).is_ok()
}

fn may_write(rt: &HostRuntime, path: &str) -> bool {
    File::options().write(true).open(rt, path).is_ok()
}

fn open(rt: &HostRuntime, path: &str, capacity: u32) -> Result<FileDisk, FileError> {
    FileDisk::open(rt, path, capacity)
}

fn is_file(rt: &HostRuntime, path: &str, text: &str) -> bool {
    match fs::read(rt, path) {
        Ok(bytes) => bytes.as_slice() == text.as_bytes(),
        Err(_) => false,
    }
}

/// Keeps a disk that is opened. Whether it was.
fn opens(rt: &HostRuntime, disk: &mut Option<FileDisk>, path: &str, capacity: u32) -> bool {
    *disk = open(rt, path, capacity).ok();
    disk.is_some()
}

fn is_refused(rt: &HostRuntime, path: &str, capacity: u32, error: FileError) -> bool {
    open(rt, path, capacity).err() == Some(error)
}

fn does(disk: &mut Option<FileDisk>, call: Call) -> bool {
    match disk {
        Some(disk) => calls::holds(disk, call),
        None => false,
    }
}

/// Whether a step has its answer.
fn holds(rt: &HostRuntime, disk: &mut Option<FileDisk>, step: Step) -> bool {
    match step {
        Step::Case(_) => {
            *disk = None;
            remove_all(rt);
            true
        }
        Step::Put(path, text) => fs::write(rt, path, text.as_bytes()).is_ok(),
        Step::Holds(path, text) => is_file(rt, path, text),
        Step::MakeFolder => fs::create_dir(rt, FOLDER).is_ok(),
        Step::MakeLink => symlink(rt, INSIDE, LINK).is_ok(),
        Step::RemoveFolder => fs::remove_dir_all(rt, FOLDER).is_ok(),
        Step::Protect(path) => protect(rt, path),
        Step::Open(path, capacity) => opens(rt, disk, path, capacity),
        Step::Refused(path, capacity, error) => is_refused(rt, path, capacity, error),
        Step::RefusedUnlessRoot(path) => {
            may_write(rt, path) || is_refused(rt, path, 8, FileError::Failed)
        }
        Step::Close => {
            *disk = None;
            true
        }
        Step::Do(call) => does(disk, call),
    }
}

#[test]
fn each_step_is_answered_as_it_says(rt: HostRuntime) {
    let mut disk = None;
    for (n, step) in steps().iter().enumerate() {
        assert!(rt; holds(&rt, &mut disk, *step), "step {n}");
    }
}
