//! The folder of a cast in the file system.

use crate::about::About;
use crate::error::CastError;
use crate::folder::{Folder, Spelled};
use c8_disk::GhostList;
use std::fs::File;
use std::io::{ErrorKind, Read, Write};
use std::rt::Files;
use std::{fs, io};

/// The most bytes of a file that are read. None of a cast has as many.
const MOST_READ: u64 = 65_536;

/// A folder with `match.json`, the chunks `rows/000000.bin` and so on, and `tail.bin`. A file is written beside its place,
/// synced, and gets its name once it is whole. A chunk gets it by a link, which never replaces a file.
#[derive(Drop)]
pub struct FolderAt<'r, 'p, R> {
    rt: &'r R,
    path: &'p str,
    /// Stands in the names of files that are not whole, so two watchers can cast into one folder.
    seat: u8,
    kept: GhostList<Spelled>,
    written: GhostList<Spelled>,
}

impl<'r, 'p, R: Files<File = File> + AllocGlobal> FolderAt<'r, 'p, R> {
    ghost use Rattle.std.specs.Prelude.{◌≡◌, [], IfOk};

    /// Opens the folder for a match; it is made if it is missing. Returns the tail too, if an earlier cast of the match left
    /// one. `Differs` if the folder has another match.
    pub fn open(
        rt: &'r R,
        path: &'p str,
        seat: u8,
        about: &About,
    ) -> Result<(FolderAt<'r, 'p, R>, Option<Spelled>), CastError>
        ensures { IfOk result (λ opened. opened.0.kept.items ≡ []) }
    {
        let folder = FolderAt {
            rt,
            path,
            seat,
            kept: GhostList::new(),
            written: GhostList::new(),
        };
        make_folder(rt, path)?;
        let rows = format!(in rt.alloc(); "{path}/rows")?;
        make_folder(rt, rows.as_str())?;
        folder.tell(about)?;
        let earlier = folder.content("tail.bin")?;
        Ok((folder, earlier))
    }

    /// Makes `match.json`, or compares the one that is there.
    fn tell(&self, about: &About) -> Result<(), CastError> {
        let there = match self.content("match.json")? {
            None if self.make("match.json", &about.text)? => return Ok(()),
            None => self.content("match.json")?,
            Some(there) => Some(there),
        };
        match there {
            Some(there) if about.is_of(&there) => Ok(()),
            _ => Err(CastError::Differs),
        }
    }

    /// Reads a file; `None` if there is none.
    fn content(&self, name: &str) -> Result<Option<Spelled>, CastError> {
        let path = format!(in self.rt.alloc(); "{}/{name}", self.path)?;
        match fs::open(self.rt, path.as_str()) {
            Ok(file) => {
                let mut bytes = Vec::new(self.rt.alloc());
                file.take(MOST_READ).read_to_end(&mut bytes)?;
                Ok(Some(Spelled { bytes }))
            }
            Err(error) if error.kind() == ErrorKind::NotFound => Ok(None),
            Err(error) => Err(CastError::from(error)),
        }
    }

    /// Makes a file, unless one with the name is there, which stays as it is. Returns whether it was made.
    fn make(&self, name: &str, content: &Spelled) -> Result<bool, CastError> {
        let (beside, path) = self.written_beside(name, content)?;
        let named = fs::hard_link(self.rt, beside.as_str(), path.as_str());
        let _ = fs::remove_file(self.rt, beside.as_str());
        match named {
            Ok(()) => Ok(true),
            Err(error) if error.kind() == ErrorKind::AlreadyExists => Ok(false),
            Err(error) => Err(CastError::from(error)),
        }
    }

    /// Writes what a file is to have beside its place. Returns where that is, and its place.
    fn written_beside(&self, name: &str, content: &Spelled) -> io::Result<(String, String)> {
        let (alloc, folder, seat) = (self.rt.alloc(), self.path, self.seat);
        let path = format!(in alloc; "{folder}/{name}")?;
        let beside = format!(in alloc; "{folder}/{name}.{seat}")?;
        let mut file = fs::create(self.rt, beside.as_str())?;
        file.write_all(&content.bytes)?;
        file.sync_all()?;
        Ok((beside, path))
    }

    /// Keeps a chunk: makes its file, or compares the one that is there.
    fn keep_file(&self, number: u32, chunk: &Spelled) -> Result<(), CastError> {
        let name = format!(in self.rt.alloc(); "rows/{number:06}.bin")?;
        let there = match self.content(name.as_str())? {
            None if self.make(name.as_str(), chunk)? => return Ok(()),
            None => self.content(name.as_str())?,
            Some(there) => Some(there),
        };
        match there {
            Some(there) if there.bytes == chunk.bytes => Ok(()),
            _ => Err(CastError::Differs),
        }
    }

    /// Puts a file in the place of another one.
    fn replace(&self, name: &str, content: &Spelled) -> Result<(), CastError> {
        let (beside, path) = self.written_beside(name, content)?;
        fs::rename(self.rt, beside.as_str(), path.as_str())?;
        Ok(())
    }
}

impl<'r, 'p, R: Files<File = File> + AllocGlobal> Folder for FolderAt<'r, 'p, R> {
    ghost chunks = { λ folder. folder.kept.items };

    ghost tails = { λ folder. folder.written.items };

    fn keep(&mut self, number: u32, chunk: &Spelled) -> Result<(), CastError> {
        self.keep_file(number, chunk)?;
        self.kept = self.kept.and(chunk);
        Ok(())
    }

    fn replace_tail(&mut self, tail: &Spelled) -> Result<(), CastError> {
        self.replace("tail.bin", tail)?;
        self.written = self.written.and(tail);
        Ok(())
    }
}

/// Makes a folder, if it is missing.
fn make_folder<R: Files>(rt: &R, path: &str) -> Result<(), CastError> {
    match fs::create_dir(rt, path) {
        Err(error) if error.kind() != ErrorKind::AlreadyExists => Err(CastError::from(error)),
        _ => Ok(()),
    }
}
