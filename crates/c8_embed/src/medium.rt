//! The storage of an engine's journal.
ghost use Rattle.std.specs.Prelude.{◌≤◌};

use c8_disk::SystemFile;
use os::FromRawFd;
use std::io;
use std::os::fd::{AsRawFd, OwnedFd};
use std::os::unix::fs::FileExt;

/// A file for `FileDisk::over`.
#[derive(Drop)]
pub enum Medium {
    /// None: the journal is kept in memory only, and is empty when it is opened.
    Memory,
    /// The descriptors of a regular file that is open to read and write, and of the folder that has its name. Dropping
    /// the medium closes both.
    File { file: OwnedFd, folder: OwnedFd },
    /// The descriptor of a regular file that is open to read. It is read once, when the disk is opened; it is not locked,
    /// and what the disk writes stays in memory. Dropping the medium closes it.
    Copy { file: OwnedFd },
}

impl Medium {
    /// Takes over two descriptors, which nothing else may close. If one of them is negative it closes the other, and
    /// returns `None`.
    pub fn take(file: i32, folder: i32) -> Option<Medium> {
        let (file, folder) = (owned(file), owned(folder));
        Some(Medium::File {
            file: file?,
            folder: folder?,
        })
    }

    /// Takes over a descriptor that is open to read, which nothing else may close. Returns `None` if it is negative.
    pub fn copy_of(file: i32) -> Option<Medium> {
        Some(Medium::Copy { file: owned(file)? })
    }

    /// Lends the file that is read, if there is one.
    fn file(&self) -> Option<&OwnedFd> {
        match self {
            Medium::Memory => None,
            Medium::File { file, .. } => Some(file),
            Medium::Copy { file } => Some(file),
        }
    }

    /// Lends the file that is written, if there is one.
    fn written(&self) -> Option<&OwnedFd> {
        match self {
            Medium::File { file, .. } => Some(file),
            Medium::Memory | Medium::Copy { .. } => None,
        }
    }
}

/// Takes a descriptor, unless it is negative.
fn owned(descriptor: i32) -> Option<OwnedFd> {
    if descriptor < 0 {
        return None;
    }
    Some(unsafe { OwnedFd::from_raw_fd(descriptor) })
}

/// Returns the system's last error.
fn last_error() -> io::Error {
    io::Error::from_raw_os_error(os::errno())
}

/// Turns the 0 or -1 of a system call into a result.
fn done(status: i32) -> io::Result<()> {
    if status < 0 {
        Err(last_error())
    } else {
        Ok(())
    }
}

impl FileExt for Medium {
    fn read_at(&self, buffer: &mut [u8], at: u64) -> io::Result<usize> {
        let Some(file) = self.file() else {
            return Ok(0);
        };
        let count = libc::pread(file.as_raw_fd(), buffer, at.cast_signed());
        if count < 0 {
            Err(last_error())
        } else {
            Ok(count as usize)
        }
    }

    fn write_at(&self, bytes: &[u8], at: u64) -> io::Result<usize> {
        let Some(file) = self.written() else {
            return Ok(bytes.len());
        };
        let count = libc::pwrite(file.as_raw_fd(), bytes, at.cast_signed());
        if count < 0 {
            Err(last_error())
        } else {
            Ok(count as usize)
        }
    }
}

impl SystemFile for Medium {
    fn len(&self) -> io::Result<u64> {
        let Some(file) = self.file() else {
            return Ok(0);
        };
        let length = libc::lseek(file.as_raw_fd(), 0, libc::SEEK_END);
        if length < 0 {
            Err(last_error())
        } else {
            Ok(length as u64)
        }
    }

    fn try_lock(&self) -> io::Result<()> {
        match self.written() {
            Some(file) => done(libc::flock(file.as_raw_fd(), libc::LOCK_EX | libc::LOCK_NB)),
            None => Ok(()),
        }
    }

    fn sync_all(&self) -> io::Result<()> {
        match self.written() {
            Some(file) => done(libc::fsync(file.as_raw_fd())),
            None => Ok(()),
        }
    }

    fn sync_data(&self) -> io::Result<()> {
        match self.written() {
            Some(file) => done(libc::fdatasync(file.as_raw_fd())),
            None => Ok(()),
        }
    }

    fn drop_copies(&self) -> io::Result<()> {
        let Some(file) = self.written() else {
            return Ok(());
        };
        let error = libc::posix_fadvise(file.as_raw_fd(), 0, 0, libc::POSIX_FADV_DONTNEED);
        if error != 0 {
            return Err(io::Error::from_raw_os_error(error));
        }
        Ok(())
    }

    fn sync_folder(&self) -> io::Result<()> {
        match self {
            Medium::Memory | Medium::Copy { .. } => Ok(()),
            Medium::File { folder, .. } => done(libc::fsync(folder.as_raw_fd())),
        }
    }
}
