//! Files that are read from a folder, once.

use crate::page::{Page, Pages};
use std::alloc::Global;
use std::fs::{DirEntry, File};
use std::io::{ErrorKind, Read};
use std::rt::Files;
use std::{fs, io};

/// The most bytes of all files together.
pub const MOST_BYTES: u64 = 16_777_216;

/// The most folders that are read.
const MOST_FOLDERS: usize = 1024;

/// The content type of each ending of a name. Files with other endings are not served.
const KINDS: [(&str, &str); 11] = [
    (".html", "text/html; charset=utf-8"),
    (".mjs", "text/javascript; charset=utf-8"),
    (".js", "text/javascript; charset=utf-8"),
    (".css", "text/css; charset=utf-8"),
    (".txt", "text/plain; charset=utf-8"),
    (".game", "text/plain; charset=utf-8"),
    (".keys", "text/plain; charset=utf-8"),
    (".wasm", "application/wasm"),
    (".json", "application/json"),
    (".png", "image/png"),
    (".svg", "image/svg+xml"),
];

/// Reads the files of a folder and of the folders in it. It skips links, names that begin with a dot, and files of other
/// kinds. The error is the system's; or that there are more than [`MOST_BYTES`] bytes, of the kind `FileTooLarge`; or that
/// memory ran out.
pub fn pages_in<R>(rt: &R, folder: &str) -> io::Result<Pages>
where
    R: Files<File = File> + AllocGlobal + Clone + Drop,
{
    let alloc = rt.alloc();
    let mut reading = Reading {
        alloc,
        pages: Pages::none(alloc),
        folders: Vec::new(alloc),
        left: MOST_BYTES,
    };
    reading.folders.push(String::from_str(alloc, "/")?)?;
    for _ in 0..MOST_FOLDERS {
        let Some(path) = reading.folders.pop() else {
            return Ok(reading.pages);
        };
        reading.read_folder(rt, folder, path.as_str())?;
    }
    Err(ErrorKind::FileTooLarge.into())
}

/// A folder that is being read.
#[derive(Drop)]
struct Reading {
    alloc: Global,
    pages: Pages,
    /// The paths of folders in it that are still to be read, as they stand in a URL.
    folders: Vec<String>,
    /// How many bytes may still come.
    left: u64,
}

impl Reading {
    /// Reads the files of the folder with a path in a URL.
    fn read_folder<R>(&mut self, rt: &R, top: &str, path: &str) -> io::Result<()>
    where
        R: Files<File = File> + AllocGlobal + Clone + Drop,
    {
        let alloc = self.alloc;
        let whole = format!(in alloc; "{top}{path}")?;
        for entry in fs::read_dir(rt, whole.as_str())? {
            let entry = entry?;
            self.take(rt, path, &entry)?;
        }
        Ok(())
    }

    /// Reads a file, or notes a folder.
    fn take<R>(&mut self, rt: &R, path: &str, entry: &DirEntry<R>) -> io::Result<()>
    where
        R: Files<File = File> + AllocGlobal + Clone + Drop,
    {
        let alloc = self.alloc;
        let name = entry.file_name();
        if name.starts_with('.') {
            return Ok(());
        }
        let metadata = entry.metadata()?;
        if metadata.is_dir() {
            self.folders.push(format!(in alloc; "{path}{name}/")?)?;
        } else if metadata.is_file()
            && let Some(kind) = kind_of(name)
        {
            let bytes = self.read_file(rt, entry)?;
            let path = format!(in alloc; "{path}{name}")?;
            self.pages
                .add(Page::new(alloc, path, kind, bytes.as_slice())?)?;
        }
        Ok(())
    }

    /// Reads the bytes of a file, if they are not too many.
    fn read_file<R>(&mut self, rt: &R, entry: &DirEntry<R>) -> io::Result<Vec<u8>>
    where
        R: Files<File = File> + AllocGlobal + Clone + Drop,
    {
        let file = fs::open(rt, entry.path())?;
        let mut bytes = Vec::new(self.alloc);
        file.take(self.left.saturating_add(1))
            .read_to_end(&mut bytes)?;
        let size = bytes.len() as u64;
        if size > self.left {
            return Err(ErrorKind::FileTooLarge.into());
        }
        self.left -= size;
        Ok(bytes)
    }
}

/// The content type of a file, by its name.
fn kind_of(name: &str) -> Option<&'static str> {
    for (ending, kind) in KINDS {
        if name.ends_with(ending) {
            return Some(kind);
        }
    }
    None
}
