//! A block: the buffer for slots that one disk call reads.
ghost use Rattle.std.specs.Prelude.{◌≡◌, ◌==◌, ◌<◌, ◌/◌, length};
ghost use Rattle.c8_log.specs.Slots.{body_of, slot_length};

use crate::image::body_at;
use crate::slot::{SLOT_LENGTH, Slot};
use std::fmt;

/// How many slots fit into a block.
pub const BLOCK_SLOTS: usize = 32;

/// The length of a block in bytes.
pub const BLOCK_LENGTH: usize = SLOT_LENGTH * BLOCK_SLOTS;

/// The same, as a distance on a disk.
pub(crate) const BLOCK: u32 = BLOCK_LENGTH as u32;

/// A buffer for one read of a log: 32 slots, 4608 bytes. Reuse one for all reads.
#[derive(Drop)]
pub struct Block {
    pub(crate) bytes: [u8; BLOCK_LENGTH],
}

impl Default for Block {
    fn default() -> Block {
        Block::new()
    }
}

/// Shows only the name.
impl fmt::Debug for Block {
    fn fmt<W: fmt::Write>(&self, f: &mut fmt::Formatter<W>) -> fmt::Result {
        f.write_str("Block")
    }
}

impl Block {
    /// Creates an empty block.
    pub fn new() -> Block {
        Block {
            bytes: [0; BLOCK_LENGTH],
        }
    }
}

/// The slots that a read gave, borrowed from the block.
#[derive(Clone, Copy)]
pub struct Slots<'b> {
    pub bytes: &'b [u8],
}

/// Shows how many slots there are.
impl<'b> fmt::Debug for Slots<'b> {
    fn fmt<W: fmt::Write>(&self, f: &mut fmt::Formatter<W>) -> fmt::Result {
        let count = self.len();
        write!(f, "Slots {{ len: {count} }}")
    }
}

impl<'b> Slots<'b> {
    /// Returns how many slots there are.
    pub fn len(&self) -> usize
        ensures { result ≡ length self.now.bytes.now / slot_length }
    {
        self.bytes.len() / SLOT_LENGTH
    }

    /// Returns whether there are no slots.
    pub fn is_empty(&self) -> bool
        ensures { result ≡ (length self.now.bytes.now / slot_length == 0) }
    {
        self.len() == 0
    }

    /// Returns slot `i`, from 0. Its body borrows from the block.
    pub fn get(&self, i: usize) -> Slot<'b>
        requires { i < length self.now.bytes.now / slot_length }
        ensures { result.body.now ≡ body_of self.now.bytes.now i }
    {
        Slot {
            body: body_at(self.bytes, i),
        }
    }
}
