//! The calls of the operating system that a disk in a file makes.
use std::fs::{self, File};
use std::io;
use std::os::fd::AsRawFd;
use std::os::unix::fs::FileExt;
use std::rt::Files;

/// An open file, with the calls that a disk makes. [`crate::FileDisk::over`] makes a disk of any such file: of another
/// file layer than the operating system's, or of a test file whose calls can fail. [`FileExt`] reads and writes its
/// bytes.
pub trait SystemFile: FileExt + Drop {
    /// Returns how many bytes it has. Fails if it is not a regular file.
    fn len(&self) -> io::Result<u64>;

    /// Takes the lock of the file. No other opening of the file can take it as long as this one lasts. The error's kind is
    /// `WouldBlock` if another opening has it.
    fn try_lock(&self) -> io::Result<()>;

    /// Makes its bytes, its length and its other metadata durable.
    fn sync_all(&self) -> io::Result<()>;

    /// Makes its bytes and its length durable.
    fn sync_data(&self) -> io::Result<()>;

    /// Drops the system's cache of the file's bytes, except those that are not durable yet: the next read is from the
    /// device.
    fn drop_copies(&self) -> io::Result<()>;

    /// Makes the file's name durable in its folder.
    fn sync_folder(&self) -> io::Result<()>;
}

/// A file of the operating system, and the folder that has its name.
#[derive(Drop)]
pub struct OpenedFile {
    pub file: File,
    pub folder: File,
}

impl OpenedFile {
    /// Opens the file at this path to read and write, and makes it if there is none.
    pub fn open<R: Files<File = File> + AllocGlobal>(rt: &R, path: &str) -> io::Result<OpenedFile> {
        let file = File::options()
            .read(true)
            .write(true)
            .create(true)
            .open(rt, path)?;
        // A link is followed first: the name to make durable is that of the file itself.
        let mut folder = fs::canonicalize(rt, path)?;
        folder.pop();
        let folder = File::open(rt, folder.as_str())?;
        Ok(OpenedFile { file, folder })
    }
}

impl FileExt for OpenedFile {
    fn read_at(&self, buffer: &mut [u8], at: u64) -> io::Result<usize> {
        self.file.read_at(buffer, at)
    }

    fn write_at(&self, bytes: &[u8], at: u64) -> io::Result<usize> {
        self.file.write_at(bytes, at)
    }
}

impl SystemFile for OpenedFile {
    fn len(&self) -> io::Result<u64> {
        let metadata = self.file.metadata()?;
        if !metadata.is_file() {
            return Err(io::ErrorKind::Unsupported.into());
        }
        Ok(metadata.len())
    }

    fn try_lock(&self) -> io::Result<()> {
        Ok(self.file.try_lock()?)
    }

    fn sync_all(&self) -> io::Result<()> {
        self.file.sync_all()
    }

    fn sync_data(&self) -> io::Result<()> {
        self.file.sync_data()
    }

    fn drop_copies(&self) -> io::Result<()> {
        let error = libc::posix_fadvise(self.file.as_raw_fd(), 0, 0, libc::POSIX_FADV_DONTNEED);
        if error != 0 {
            return Err(io::Error::from_raw_os_error(error));
        }
        Ok(())
    }

    fn sync_folder(&self) -> io::Result<()> {
        self.folder.sync_all()
    }
}
