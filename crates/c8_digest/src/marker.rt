//! The marks of machines that follow one another.
ghost use Rattle.std.specs.Prelude.{◌≡◌, ◌↔◌, true, length};
ghost use Rattle.sha2.specs.Hashers.{Holds256};
ghost use Rattle.c8_machine.specs.State.{state};
ghost use Rattle.c8_digest.specs.StateBytes.{mark_of};
ghost use Rattle.c8_digest.specs.checked.Parts.{holds_prop};

use crate::digest::{MARK_LENGTH, first_of, put_after_memory};
use arrayvec::ArrayVec;
use c8_machine::{MEMORY_SIZE, Machine};
use sha2::{Digest, Sha256};

/// Makes marks. Programs seldom write to memory, so it keeps the hasher as it is after the memory, and hashes a memory
/// only if it differs from the last one.
#[derive(Drop)]
pub struct Marker {
    memory: [u8; MEMORY_SIZE],
    begun: Sha256,
    ghost begins: { Holds256 begun memory } by { holds_prop begun memory },
}

impl Marker {
    /// Makes a marker for machines of any game.
    pub fn new() -> Marker {
        Marker::over(&[0; MEMORY_SIZE])
    }

    /// Returns the mark of a machine, that of [`mark`](crate::mark).
    pub fn mark(&mut self, machine: &Machine) -> [u8; MARK_LENGTH]
        ensures { result ≡ mark_of (state machine.now) }
    {
        self.follow(machine.memory());
        let Ok(mut hasher) = self.begun.clone() else {
            unreachable!();
        };
        let mut rest = ArrayVec::new();
        put_after_memory(machine, &mut rest);
        hasher.update(rest.as_slice());
        first_of(&hasher.finalize())
    }

    /// Hashes a memory if it is not the last one.
    fn follow(&mut self, memory: &[u8; MEMORY_SIZE])
        ensures memory { self.new.memory ≡ memory.now }
        ensures long { length memory.now ≡ MEMORY_SIZE }
    {
        if !is_same(&self.memory, memory) {
            *self = Marker::over(memory);
        }
    }

    fn over(memory: &[u8; MEMORY_SIZE]) -> Marker
        ensures { result.memory ≡ memory.now }
    {
        Marker {
            memory: *memory,
            begun: Sha256::new_with_prefix(memory.as_slice()),
        }
    }
}

impl Default for Marker {
    fn default() -> Marker {
        Marker::new()
    }
}

fn is_same(one: &[u8; MEMORY_SIZE], other: &[u8; MEMORY_SIZE]) -> bool
    ensures { (result ≡ true) ↔ (one.now ≡ other.now) }
{
    one == other
}
