//! The keys of one player, one key set a line.

ghost use Rattle.std.specs.Prelude.{MatchOption, MatchResult};
ghost use Rattle.std.specs.Str.Lines.{lines};
ghost use Rattle.c8_game.specs.Faults.{AreFaultless, IsFirstPlace};
ghost use Rattle.c8_texts.specs.KeySets.{AreSetsOf, IsFaultOfSets, set_fault};

use crate::error::KeysError;
use c8_game::{Keys, Lines};
use std::alloc::Global;

/// Reads the key sets of a text, one a line, each of four hexadecimal digits.
pub fn key_sets(alloc: Global, text: &[u8]) -> Result<Vec<Keys>, KeysError>
    ensures { MatchResult result (λ sets. AreSetsOf text.now sets.items) (IsFaultOfSets text.now) }
{
    let mut sets = Vec::new(alloc);
    for line in Lines::new(text) {
        let Some(set) = Keys::from_hex(line) else {
            return Err(KeysError::Line);
        };
        let Ok(()) = sets.push(set) else {
            return Err(KeysError::Memory);
        };
    }
    Ok(sets)
}

/// Returns the place of the first line of a text that is not four hexadecimal digits; the first line is at 0. `None` if
/// there is no such line.
pub fn faulty_key_set(text: &[u8]) -> Option<usize>
    ensures { MatchOption result
        (AreFaultless set_fault (lines text.now)) (IsFirstPlace set_fault (lines text.now)) }
{
    let mut place = 0;
    for line in Lines::new(text) {
        if Keys::from_hex(line).is_none() {
            return Some(place);
        }
        place += 1;
    }
    None
}
