//! The calls of a disk as data. Each call stands here once, in a function without a contract, so a
//! test that makes many of them stays cheap to prove.
use c8_disk::{Disk, DiskError, LONGEST_WRITE, MemDisk};
use std::alloc::Global;

/// An empty disk in memory.
pub(crate) fn new_disk(alloc: Global, capacity: u32) -> Option<MemDisk> {
    MemDisk::new(alloc, capacity, 100).ok()
}

/// A call of a disk, and its answer: the refusal, if any.
#[derive(Clone, Copy)]
pub enum Call {
    /// Writes these bytes at this place.
    Write(u32, &'static str, Option<DiskError>),
    /// Reads these bytes from this place on.
    Read(u32, &'static str, Option<DiskError>),
    /// Lends these bytes in place, and no others.
    Held(&'static str),
    Sync(Option<DiskError>),
}

/// Whether a write at a place within the disk's bytes has this answer.
pub fn writes<D: Disk>(disk: &mut D, at: u32, bytes: &[u8], wanted: Option<DiskError>) -> bool {
    if at > disk.len() || bytes.len() > LONGEST_WRITE {
        return false;
    }
    disk.write_at(at, bytes).err() == wanted
}

/// The most bytes that one read has here.
const MOST: usize = 16;

/// Whether a read at a place gives these bytes, or has this refusal.
fn reads<D: Disk>(disk: &mut D, at: u32, bytes: &[u8], wanted: Option<DiskError>) -> bool {
    let (length, many) = (disk.len() as usize, bytes.len());
    let mut room = [0; MOST];
    if many > MOST || at as usize > length || many > length - at as usize {
        return false;
    }
    match disk.read_at(at, &mut room[..many]) {
        Ok(()) => wanted.is_none() && &room[..many] == bytes,
        Err(error) => wanted == Some(error),
    }
}

/// Whether the disk lends these bytes, and no others.
fn lends<D: Disk>(disk: &D, bytes: &[u8]) -> bool {
    match disk.held() {
        Some(held) => held == bytes,
        None => false,
    }
}

pub fn syncs<D: Disk>(disk: &mut D, wanted: Option<DiskError>) -> bool {
    disk.sync().err() == wanted
}

/// Whether a call has the answer that it names.
pub fn holds<D: Disk>(disk: &mut D, call: Call) -> bool {
    match call {
        Call::Write(at, text, wanted) => writes(disk, at, text.as_bytes(), wanted),
        Call::Read(at, text, wanted) => reads(disk, at, text.as_bytes(), wanted),
        Call::Held(text) => lends(disk, text.as_bytes()),
        Call::Sync(wanted) => syncs(disk, wanted),
    }
}
