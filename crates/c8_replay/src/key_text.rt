//! Rows as key lines.

ghost use Rattle.std.specs.Prelude.{◌≡◌, ◌≤◌, ◌++◌, ◌∷◌, [], IfOk, OnOk};
ghost use Rattle.std.specs.List.{All};
ghost use Rattle.c8_known.specs.Confirmed.{confirmed, rows_below};
ghost use Rattle.c8_known.specs.Known.{IsOfGame};
ghost use Rattle.c8_replay.specs.KeyText.{IsSet, set_text, sets_text, keys_text, SpellRows};

use c8_game::{Game, Keys};
use c8_known::Known;
use std::alloc::{AllocError, Global};

/// Returns the first confirmed rows as key lines: for each row the sets of the game's players as entered, in lower-case
/// digits.
pub(crate) fn key_text(
    alloc: Global,
    game: &Game,
    known: &Known,
    frames: u32,
) -> Result<Vec<u8>, AllocError>
    requires of_game { IsOfGame game.now known.now.me known.now }
    requires within { frames ≤ confirmed known.now }
    requires few { frames ≤ game.now.frames }
    ensures exact { IfOk result (λ text.
        text.items ≡ keys_text game.now.players (rows_below known.now frames)) }
    ensures spell { IfOk result (λ text.
        SpellRows game.now text.items (rows_below known.now frames)) }
{
    let players = usize::from(game.players());
    let mut text = Vec::new(alloc);
    for frame in 0..frames {
        let row = known.row(frame);
        add_line(&mut text, &row.sets[..players])?;
    }
    Ok(text)
}

/// Adds the line of these sets.
#[tactic(auto, unfolding(crate::specs::KeyText::sets_text))]
fn add_line(text: &mut Vec<u8>, sets: &[Keys]) -> Result<(), AllocError>
    ensures line { OnOk result (text.new.items ≡ text.old.items ++ (sets_text sets.now ++ 10 ∷ [])) }
    ensures sets { OnOk result (All IsSet sets.now) }
{
    match sets {
        [] => Ok(text.push(b'\n')?),
        [last] => {
            text.extend_from_slice(&digits_of(*last))?;
            Ok(text.push(b'\n')?)
        }
        [first, rest @ ..] => {
            text.extend_from_slice(&digits_of(*first))?;
            text.push(b' ')?;
            add_line(text, rest)
        }
    }
}

/// Returns the four digits of a set.
pub(crate) fn digits_of(keys: Keys) -> [u8; 4]
    ensures text { result ≡ set_text keys }
    ensures set { IsSet keys }
{
    let mut digits = [0; 4];
    match hex::encode_to_slice(&keys.0.to_be_bytes(), &mut digits) {
        Ok(()) => digits,
        Err(_) => unreachable!(),
    }
}
