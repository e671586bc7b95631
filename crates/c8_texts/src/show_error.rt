//! Why the command `show` refuses its word.

ghost use Rattle.std.specs.Prelude.{◌≡◌};
ghost use Rattle.c8_texts.specs.ShowErrors.{hex_error_number, show_part, show_error_number};

use c8_command::{Part, Refusal};
use c8_wire::WireError;
use thiserror::Error;

/// Why a word is no hexadecimal text.
#[derive(Clone, Copy, Debug, PartialEq, Eq, Error)]
pub enum HexError {
    #[error("a word that is not pairs of hexadecimal digits")]
    Bad,
    #[error("out of memory")]
    Memory,
}

impl HexError {
    /// Returns the number of the refusal.
    pub fn number(self) -> u8
        ensures { result ≡ hex_error_number self }
    {
        match self {
            HexError::Bad => 1,
            HexError::Memory => 2,
        }
    }

    /// Returns the name of the refusal.
    pub fn name(self) -> &'static str {
        match self {
            HexError::Bad => "Bad",
            HexError::Memory => "Memory",
        }
    }
}

/// Why the command `show` refuses its word.
#[derive(Clone, Copy, Debug, PartialEq, Eq, Error)]
pub enum ShowError {
    /// The word is no hexadecimal text.
    #[error("{0}")]
    Hex(HexError),
    /// Its bytes are no datagram.
    #[error("{0}")]
    Wire(WireError),
}

impl From<ShowError> for Refusal {
    ghost from_gives = { λ error refusal. (refusal.part ≡ show_part error) × (refusal.number ≡ show_error_number error) };

    fn from(error: ShowError) -> Refusal {
        match error {
            ShowError::Hex(error) => Refusal {
                part: Part::Hex,
                number: error.number(),
                name: error.name(),
            },
            ShowError::Wire(error) => Refusal {
                part: Part::Wire,
                number: error.number(),
                name: error.name(),
            },
        }
    }
}
