//! The file of a journal, and the system's error if it fails.

ghost use Rattle.std.specs.Prelude.{◌≡◌};

use c8_disk::{OpenedFile, SystemFile};
use std::cell::Cell;
use std::io;
use std::os::unix::fs::FileExt;

/// The last error that the system answered at a journal's file. A disk makes no call after the one that took it down, so
/// this is then the reason.
#[derive(Drop)]
pub struct Trouble {
    last: Cell<Option<io::Error>>,
}

impl Trouble {
    /// No error yet.
    pub fn none() -> Trouble {
        Trouble {
            last: Cell::new(None),
        }
    }

    /// Returns the last error, if there was one.
    pub fn last(&self) -> Option<io::Error> {
        self.last.get()
    }

    /// Keeps the error of an answer.
    pub(crate) fn keep<T>(&self, answer: io::Result<T>) -> io::Result<T>
        ensures { result ≡ answer }
    {
        if let Err(error) = &answer {
            self.last.set(Some(*error));
        }
        answer
    }
}

/// The file of a journal. It keeps each error of the system.
#[derive(Drop)]
pub struct Medium<'t> {
    pub(crate) file: OpenedFile,
    pub(crate) trouble: &'t Trouble,
}

impl<'t> FileExt for Medium<'t> {
    fn read_at(&self, buffer: &mut [u8], at: u64) -> io::Result<usize> {
        self.trouble.keep(self.file.read_at(buffer, at))
    }

    fn write_at(&self, bytes: &[u8], at: u64) -> io::Result<usize> {
        self.trouble.keep(self.file.write_at(bytes, at))
    }
}

impl<'t> SystemFile for Medium<'t> {
    fn len(&self) -> io::Result<u64> {
        self.trouble.keep(self.file.len())
    }

    fn try_lock(&self) -> io::Result<()> {
        self.trouble.keep(self.file.try_lock())
    }

    fn sync_all(&self) -> io::Result<()> {
        self.trouble.keep(self.file.sync_all())
    }

    fn sync_data(&self) -> io::Result<()> {
        self.trouble.keep(self.file.sync_data())
    }

    fn drop_copies(&self) -> io::Result<()> {
        self.trouble.keep(self.file.drop_copies())
    }

    fn sync_folder(&self) -> io::Result<()> {
        self.trouble.keep(self.file.sync_folder())
    }
}
