//! The memory of a roll.
ghost use Rattle.std.specs.Prelude.{◌≡◌, ◌+◌, IfOk};

use crate::timeline::Snapshot;
use c8_digest::Marks;
use c8_game::Game;
use circular_buffer::HeapCircularBuffer;
use std::alloc::{AllocError, Global};
use std::fmt;
use std::marker::Model;

/// All memory of a roll: for its marks, and for `window` + 1 snapshots. Contracts see the number of snapshots.
#[derive(Drop)]
pub struct Buffers {
    pub(crate) marks: Marks,
    pub(crate) snapshots: HeapCircularBuffer<Snapshot>,
}

impl Model for Buffers {
    ghost use Rattle.std.specs.Prelude.{◌≡◌, ℕ, []};

    ghost Value = { ℕ };

    ghost view = { λ buffers. buffers.snapshots.capacity };

    ghost invariant = { λ buffers. (buffers.marks ≡ []) × (buffers.snapshots.items ≡ []) };
}

/// Prints the number of snapshots that fit.
impl fmt::Debug for Buffers {
    fn fmt<W: fmt::Write>(&self, f: &mut fmt::Formatter<W>) -> fmt::Result {
        let room = self.snapshots.capacity();
        write!(f, "Buffers {{ snapshots: {room} }}")
    }
}

impl Buffers {
    /// Reserves the memory of a roll: for `window` + 1 snapshots, and the marks.
    pub fn new(alloc: Global, game: &Game) -> Result<Buffers, AllocError>
        ensures { IfOk result (λ buffers. buffers ≡ game.now.window + 1) }
    {
        let snapshots = usize::from(game.window()) + 1;
        Ok(Buffers {
            marks: Marks::new(alloc)?,
            snapshots: HeapCircularBuffer::with_capacity(alloc, snapshots)?,
        })
    }
}
