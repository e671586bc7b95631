//! Where a run of the machine begins: at the first frame, or at a checkpoint.
ghost use Rattle.std.specs.Prelude.{◌≡◌, ◌++◌, replicate};
ghost use Rattle.c8_digest.specs.Marks.{marks_bytes};
ghost use Rattle.c8_digest.specs.Origin.{origin_of, first_origin};

use crate::digest::{MARK_LENGTH, mark};
use crate::marks::MARKS_LENGTH;
use c8_game::Game;
use c8_machine::Machine;

/// The machine after `frames` frames, and the bytes of the marks kept then ([`Marks::bytes`](crate::Marks::bytes)).
#[derive(Clone, Copy, Debug, PartialEq, Eq)]
pub struct Checkpoint {
    pub frames: u32,
    pub machine: Machine,
    pub marks: [u8; MARKS_LENGTH],
}

impl Checkpoint {
    /// Makes the checkpoint before the first frame: the first machine and its mark.
    pub fn start(game: &Game) -> Self
        ensures origin { origin_of result ≡ first_origin game.now }
        ensures marks { result.marks ≡ marks_bytes (first_origin game.now).marks }
    {
        let machine = Machine::start(game);
        Checkpoint {
            frames: 0,
            machine,
            marks: alone(&mark(&machine)),
        }
    }
}

/// Returns the bytes of a single mark: zeros follow it.
fn alone(mark: &[u8; MARK_LENGTH]) -> [u8; MARKS_LENGTH]
    ensures { result ≡ mark.now ++ replicate 120 0 }
{
    let mut marks = [0; MARKS_LENGTH];
    marks[..MARK_LENGTH].copy_from_slice(mark);
    marks
}
