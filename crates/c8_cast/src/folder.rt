//! The files of a cast.
ghost use Rattle.std.specs.Prelude.{◌≡◌, ◌++◌, ◌∷◌, [], ℕ, List, length, OnOk, OnErr};

use crate::error::CastError;
use std::marker::Model;

/// The bytes of a file.
#[derive(Debug, Drop)]
pub struct Spelled {
    pub bytes: Vec<u8>,
}

impl Model for Spelled {
    ghost use Rattle.std.specs.Prelude.{List, ℕ};

    ghost Value = { List ℕ };

    ghost view = { λ spelled. spelled.bytes.items };
}

/// The chunks and the tail of a cast. A reader finds each file whole or not at all.
pub trait Folder {
    /// The chunks, the first one first. Each was made by this program, or was there and has the same bytes.
    ghost chunks: { Self → List (List ℕ) };

    /// The tails that this program wrote, oldest first.
    ghost tails: { Self → List (List ℕ) };

    /// Keeps the chunk with the next number. If it is not there it is made; a chunk that is there never changes. `Differs` if
    /// it has other bytes.
    fn keep(&mut self, number: u32, chunk: &Spelled) -> Result<(), CastError>
        requires { number ≡ length (chunks self.old) }
        ensures kept { OnOk result (chunks self.new ≡ chunks self.old ++ chunk.now ∷ []) }
        ensures refused { OnErr result (chunks self.new ≡ chunks self.old) }
        ensures tails { tails self.new ≡ tails self.old };

    /// Puts a tail in the place of the one that is there.
    fn replace_tail(&mut self, tail: &Spelled) -> Result<(), CastError>
        ensures replaced { OnOk result (tails self.new ≡ tails self.old ++ tail.now ∷ []) }
        ensures refused { OnErr result (tails self.new ≡ tails self.old) }
        ensures chunks { chunks self.new ≡ chunks self.old };
}
