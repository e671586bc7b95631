//! Key lines: the keys of all players, one line a frame.

ghost use Rattle.std.specs.Prelude.{◌≡◌, ◌≤◌, ◌+◌, ◌*◌, true, false, Some, MatchOption, MatchResult, length};
ghost use Rattle.std.specs.Str.Lines.{lines};
ghost use Rattle.c8_game.specs.Faults.{AreFaultless, IsFirstPlace};
ghost use Rattle.c8_texts.specs.KeyLines.{is_key_line, are_keys_at, keys_at, row_of, key_line_fault, IsFaultOf, IsRunOf};

use crate::error::KeysError;
use c8_game::{Game, Keys, Lines, Row};
use c8_machine::Machine;

/// How many frames were played, and the machine after them.
#[derive(Clone, Copy)]
pub struct Played {
    pub frames: u32,
    pub machine: Machine,
}

/// Plays one frame for each line of `keys`, starting with the game's first machine. Checks the lines in order, each
/// first for `Long`, then for `Line`.
pub fn play(game: &Game, keys: &[u8]) -> Result<Played, KeysError>
    ensures { MatchResult result (IsRunOf game.now keys.now) (IsFaultOf game.now keys.now) }
{
    let mut played = Played {
        frames: 0,
        machine: Machine::start(game),
    };
    for line in Lines::new(keys) {
        if played.frames == game.frames() {
            return Err(KeysError::Long);
        }
        let Some(row) = row_in(line, game.players()) else {
            return Err(KeysError::Line);
        };
        played.machine.frame(game, game.joined(&row));
        played.frames += 1;
    }
    Ok(played)
}

/// Returns the place of the first line of `keys` that `play` refuses; the first line is at 0. `None` if it plays them
/// all.
pub fn faulty_key_line(game: &Game, keys: &[u8]) -> Option<usize>
    ensures { MatchOption result
        (AreFaultless (key_line_fault game.now) (lines keys.now))
        (IsFirstPlace (key_line_fault game.now) (lines keys.now)) }
{
    let mut frames = 0;
    for line in Lines::new(keys) {
        if frames == game.frames() {
            return Some(frames as usize);
        }
        if row_in(line, game.players()).is_none() {
            return Some(frames as usize);
        }
        frames += 1;
    }
    None
}

/// Returns the row that a key line spells: four digits for each player, and one space between two players.
fn row_in(line: &[u8], players: u8) -> Option<Row>
    requires { players ≤ 4 }
    ensures { MatchOption result
        (is_key_line players line.now ≡ false)
        (λ row. (is_key_line players line.now ≡ true) × (row ≡ row_of players line.now)) }
{
    if line.len() + 1 != 5 * usize::from(players) {
        return None;
    }
    let mut sets = [Keys(0); 4];
    for place in 0..usize::from(players) {
        sets[place] = keys_at(line, place)?;
    }
    Some(Row { sets })
}

/// Returns the key set of the player at a place of a line; player 1 is at 0.
fn keys_at(line: &[u8], place: usize) -> Option<Keys>
    requires { 5 * place + 4 ≤ length line.now }
    ensures { MatchOption result
        (are_keys_at line.now place ≡ false)
        (λ keys. (are_keys_at line.now place ≡ true) × (keys ≡ keys_at line.now place)) }
{
    let start = 5 * place;
    if place > 0 && line[start - 1] != b' ' {
        return None;
    }
    Keys::from_hex(&line[start..start + 4])
}
