//! A system that keeps one file, for tests: each call of it may fail, and the power may go.
ghost use Rattle.std.specs.Prelude.{◌≤◌, length};

use c8_disk::SystemFile;
use std::cell::Cell;
use std::io;
use std::os::unix::fs::FileExt;

pub const ROOM: usize = 16;

/// The bytes of a file.
#[derive(Clone, Copy)]
pub struct Content {
    bytes: [u8; ROOM],
    length: usize,
}

impl Content {
    pub fn of(text: &[u8]) -> Content {
        let mut bytes = [0; ROOM];
        for (place, byte) in bytes.iter_mut().zip(text) {
            *place = *byte;
        }
        Content {
            bytes,
            length: text.len().min(ROOM),
        }
    }

    pub fn bytes(&self) -> &[u8] {
        self.bytes.get(..self.length).unwrap_or(&[])
    }
}

/// What becomes of one call.
#[derive(Clone, Copy)]
pub enum Fault {
    /// It fails, with this error of the system.
    Error(i32),
    /// It reads or writes at most this number of bytes.
    Moves(usize),
}

/// What the device holds, and the copy of it in the system's memory, which each read and write is
/// of.
#[derive(Drop)]
pub struct FakeSystem {
    pub device: Cell<Content>,
    pub copy: Cell<Content>,
    /// The next sync is to write the copy to the device.
    pub is_dirty: Cell<bool>,
    /// The file's name is on the device too.
    pub is_named: Cell<bool>,
    /// How many calls there were, and which of them fails, from 0, and how.
    pub calls: Cell<u32>,
    pub failing: Cell<Option<u32>>,
    pub fault: Cell<Fault>,
}

impl FakeSystem {
    /// A file that was just made.
    pub fn new() -> FakeSystem {
        FakeSystem {
            device: Cell::new(Content::of(b"")),
            copy: Cell::new(Content::of(b"")),
            is_dirty: Cell::new(false),
            is_named: Cell::new(false),
            calls: Cell::new(0),
            failing: Cell::new(None),
            fault: Cell::new(Fault::Error(libc::EIO)),
        }
    }

    /// Begins with a file that holds these bytes for good, or with none with a new one.
    pub fn begin(&self, text: &[u8]) {
        self.device.set(Content::of(text));
        self.copy.set(Content::of(text));
        self.is_dirty.set(false);
        self.is_named.set(!text.is_empty());
        self.calls.set(0);
        self.failing.set(None);
    }

    /// Lets this many more calls pass, and has this fault in the next one.
    pub fn fail_with(&self, calls: u32, fault: Fault) {
        self.failing.set(Some(self.calls.get().wrapping_add(calls)));
        self.fault.set(fault);
    }

    /// The power goes: what is only in memory is lost.
    pub fn lose_power(&self) {
        if !self.is_named.get() {
            self.device.set(Content::of(b""));
        }
        self.copy.set(self.device.get());
        self.is_dirty.set(false);
    }

    /// How many bytes a call may move, if it does not fail.
    fn pass(&self) -> io::Result<usize> {
        let number = self.calls.get();
        self.calls.set(number.wrapping_add(1));
        if self.failing.get() != Some(number) {
            return Ok(ROOM);
        }
        match self.fault.get() {
            Fault::Error(error) => Err(io::Error::from_raw_os_error(error)),
            Fault::Moves(count) => Ok(count),
        }
    }
}

/// Copies what there is room for, up to a number of bytes.
fn copy_some(from: &[u8], to: &mut [u8], most: usize) -> usize
    ensures from { result ≤ length from.now }
    ensures to { result ≤ length to.new }
{
    let count = from.len().min(to.len()).min(most);
    to[..count].copy_from_slice(&from[..count]);
    count
}

/// The file, as one process has it open.
#[derive(Drop)]
pub struct FakeFile<'a> {
    pub system: &'a FakeSystem,
}

impl FileExt for FakeFile<'_> {
    fn read_at(&self, buffer: &mut [u8], at: u64) -> io::Result<usize> {
        let most = self.system.pass()?;
        let copy = self.system.copy.get();
        let left = copy.bytes().get(at as usize..).unwrap_or(&[]);
        Ok(copy_some(left, buffer, most))
    }

    /// One that fails writes its first byte.
    fn write_at(&self, bytes: &[u8], at: u64) -> io::Result<usize> {
        let passed = self.system.pass();
        let mut copy = self.system.copy.get();
        let most = match &passed {
            Ok(most) => *most,
            Err(_) => 1,
        };
        let room = copy.bytes.get_mut(at as usize..).unwrap_or(&mut []);
        let count = copy_some(bytes, room, most);
        copy.length = copy.length.max((at as usize).saturating_add(count));
        self.system.copy.set(copy);
        self.system.is_dirty.set(true);
        passed?;
        Ok(count)
    }
}

impl SystemFile for FakeFile<'_> {
    fn len(&self) -> io::Result<u64> {
        self.system.pass()?;
        Ok(self.system.copy.get().length as u64)
    }

    fn try_lock(&self) -> io::Result<()> {
        self.system.pass()?;
        Ok(())
    }

    fn sync_all(&self) -> io::Result<()> {
        self.sync_data()
    }

    /// One that fails gives up: the copy counts as written, and is not, as in Linux.
    fn sync_data(&self) -> io::Result<()> {
        let was_dirty = self.system.is_dirty.replace(false);
        self.system.pass()?;
        if was_dirty {
            self.system.device.set(self.system.copy.get());
        }
        Ok(())
    }

    fn drop_copies(&self) -> io::Result<()> {
        self.system.pass()?;
        if !self.system.is_dirty.get() {
            self.system.copy.set(self.system.device.get());
        }
        Ok(())
    }

    fn sync_folder(&self) -> io::Result<()> {
        self.system.pass()?;
        self.system.is_named.set(true);
        Ok(())
    }
}
