//! What a disk asks of a file of the operating system.
use c8_disk::{OpenedFile, SystemFile};
use std::fs::{self, File};
use std::os::unix::fs::{MetadataExt, symlink};

const FOLDER: &str = "c8_disk_test_target";

const LINK: &str = "c8_disk_test_link_to_it";

const COPIES: &str = "c8_disk_test_copies.bytes";

fn remove_all(rt: &HostRuntime) {
    let _ = fs::remove_file(rt, LINK);
    let _ = fs::remove_dir_all(rt, FOLDER);
    let _ = fs::remove_file(rt, COPIES);
}

/// Whether the folder of a file that is opened by a link is the one that has the file's own name: that
/// one is synced, and not the link's.
fn is_followed(rt: &HostRuntime) -> Option<bool> {
    fs::create_dir(rt, FOLDER).ok()?;
    symlink(rt, "c8_disk_test_target/file", LINK).ok()?;
    let opened = OpenedFile::open(rt, LINK).ok()?;
    Some(opened.folder.metadata().ok()?.ino() == fs::metadata(rt, FOLDER).ok()?.ino())
}

/// Whether a new file drops its copies.
fn drops(rt: &HostRuntime) -> Option<bool> {
    Some(OpenedFile::open(rt, COPIES).ok()?.drop_copies().is_ok())
}

/// A pipe as a file, which has no bytes to drop.
fn pipe(rt: &HostRuntime) -> Option<OpenedFile> {
    let mut ends = [0; 2];
    if unsafe { libc::pipe2(&mut ends, libc::O_CLOEXEC) } != 0 {
        return None;
    }
    let path = format!(in rt.alloc(); "/proc/self/fd/{}", ends[0]).ok()?;
    Some(OpenedFile {
        file: File::open(rt, path.as_str()).ok()?,
        folder: File::open(rt, "/").ok()?,
    })
}

/// Whether a pipe says that it has no bytes to drop: the call is made, and its answer told.
fn refuses_to_drop(rt: &HostRuntime) -> Option<bool> {
    Some(pipe(rt)?.drop_copies().is_err())
}

/// Whether a device says that it has nothing to sync, and its folder is synced: each call is of the
/// file or of the folder that it is for.
fn syncs_the_folder(rt: &HostRuntime) -> Option<bool> {
    let null = OpenedFile {
        file: File::options()
            .read(true)
            .write(true)
            .open(rt, "/dev/null")
            .ok()?,
        folder: File::open(rt, ".").ok()?,
    };
    let is_refused = null.sync_all().is_err() && null.sync_data().is_err() && null.len().is_err();
    Some(is_refused && null.sync_folder().is_ok())
}

/// Whether a device in the place of the folder says that it has nothing to sync.
fn refuses_to_sync(rt: &HostRuntime) -> Option<bool> {
    let swapped = OpenedFile {
        file: File::open(rt, ".").ok()?,
        folder: File::open(rt, "/dev/null").ok()?,
    };
    Some(swapped.sync_folder().is_err())
}

#[test]
fn each_call_of_a_file_is_made(rt: HostRuntime) {
    remove_all(&rt);
    assert!(rt; is_followed(&rt) == Some(true));
    assert!(rt; drops(&rt) == Some(true));
    assert!(rt; refuses_to_drop(&rt) == Some(true));
    assert!(rt; syncs_the_folder(&rt) == Some(true));
    assert!(rt; refuses_to_sync(&rt) == Some(true));
    remove_all(&rt);
}
