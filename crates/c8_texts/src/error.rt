//! Why texts of keys are refused, and what the command `run` refuses.

ghost use Rattle.std.specs.Prelude.{◌≡◌};
ghost use Rattle.c8_command.specs.declared.refusal.Part.TheVariants as parts;
ghost use Rattle.c8_texts.specs.Errors.{keys_error_number, run_part, run_error_number};

use c8_command::{Part, Refusal};
use c8_game::GameError;
use thiserror::Error;

/// Why key lines or key sets are refused.
#[derive(Clone, Copy, Debug, PartialEq, Eq, Error)]
pub enum KeysError {
    #[error("a line that is not four hexadecimal digits for each player, one space between two")]
    Line,
    #[error("more lines than the game has frames")]
    Long,
    #[error("out of memory")]
    Memory,
}

impl KeysError {
    /// Returns the number of the refusal.
    pub fn number(self) -> u8
        ensures { result ≡ keys_error_number self }
    {
        match self {
            KeysError::Line => 1,
            KeysError::Long => 2,
            KeysError::Memory => 3,
        }
    }

    /// Returns the name of the refusal.
    pub fn name(self) -> &'static str {
        match self {
            KeysError::Line => "Line",
            KeysError::Long => "Long",
            KeysError::Memory => "Memory",
        }
    }
}

impl From<KeysError> for Refusal {
    ghost from_gives = { λ error refusal. (refusal.part ≡ parts.Keys) × (refusal.number ≡ keys_error_number error) };

    fn from(error: KeysError) -> Refusal {
        Refusal {
            part: Part::Keys,
            number: error.number(),
            name: error.name(),
        }
    }
}

/// Why the command `run` refuses its texts.
#[derive(Clone, Copy, Debug, PartialEq, Eq, Error)]
pub enum RunError {
    /// The text of the game has a fault.
    #[error("{0}")]
    Game(GameError),
    /// The text of the key lines has a fault.
    #[error("{0}")]
    Keys(KeysError),
}

impl From<RunError> for Refusal {
    ghost from_gives = { λ error refusal. (refusal.part ≡ run_part error) × (refusal.number ≡ run_error_number error) };

    fn from(error: RunError) -> Refusal {
        match error {
            RunError::Game(error) => Refusal {
                part: Part::Game,
                number: error.number(),
                name: error.name(),
            },
            RunError::Keys(error) => error.into(),
        }
    }
}
