//! The file of a game: a game's text, or the bytes of a program.
ghost use Rattle.std.specs.Prelude.{◌≡◌, ◌⊎◌, Some, true, false, Ok, IfOk, IfErr};
ghost use Rattle.c8_game.specs.GameText.{Spells};
ghost use Rattle.c8_files.specs.Asked.{rules_of, usual_settings};
ghost use Rattle.c8_files.specs.Faults.{fault_of};
ghost use Rattle.c8_files.specs.declared.error.ProgramError.TheVariants.{Memory};

use crate::error::ProgramError;
use crate::text::usual_text;
use c8_game::Game;
use std::alloc::Global;

/// The name of a file ends so if it has the bytes of a program, and not a game's text.
const PROGRAM: &[u8] = b".ch8";

/// What the file of a game's text begins with, as `game` writes it.
const TEXT: &[u8] = b"players ";

/// The sentence for bytes that are neither a game's text nor, by their name, a program.
pub const NO_TEXT: &str = "not a game's text; the name of a program's file ends in .ch8";

/// The sentence of `game` for a game's text.
pub const IS_TEXT: &str = "a game's text already, not a program; the commands take it as it is";

/// Returns whether a file has the bytes of a program by its name: it ends in `.ch8`.
pub fn is_program(path: &str) -> bool {
    path.as_bytes().ends_with(PROGRAM)
}

/// Returns whether bytes are no text: they have a control character other than a tab or the end of a line.
pub fn is_binary(bytes: &[u8]) -> bool {
    bytes.iter().any(|byte| *byte < b' ' && *byte != b'\t' && *byte != b'\n' && *byte != b'\r')
}

/// Returns whether bytes are a game's text: a game is read in them, or they begin as the texts that `game` writes.
pub fn is_text(alloc: Global, bytes: &[u8]) -> bool {
    Game::read(alloc, bytes).is_ok() || bytes.starts_with(TEXT)
}

/// Returns the game's text in the bytes of a file: the bytes; of a program the text with the usual settings. The errors
/// are those of a program.
pub fn text_of(alloc: Global, program: bool, bytes: Vec<u8>) -> Result<Vec<u8>, ProgramError>
    ensures text { program ≡ false → result ≡ Ok bytes }
    ensures program { IfOk result (λ text. program ≡ true
        → Spells text.items (rules_of usual_settings bytes.items)) }
    ensures refused { IfErr result (λ e. (e ≡ Memory)
        ⊎ (fault_of usual_settings bytes.items ≡ Some e)) }
{
    if program {
        usual_text(alloc, &bytes)
    } else {
        Ok(bytes)
    }
}
