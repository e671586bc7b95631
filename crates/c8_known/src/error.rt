//! Why a run of inputs is refused.
ghost use Rattle.std.specs.Prelude.{◌≡◌};
ghost use Rattle.c8_known.specs.Errors.{number_of};

use thiserror::Error;

/// Why a run of inputs is refused.
#[derive(Clone, Copy, Debug, PartialEq, Eq, Hash, Error)]
pub enum KnownError {
    /// The run starts after the inputs that are held.
    #[error("inputs before these are missing")]
    Gap,
    /// The run comes from a frozen player, whose inputs are taken from player 1 only.
    #[error("from a player who leaves")]
    FromLeaver,
    /// The run has an input that differs from the held one.
    #[error("an input differs from the one that is held")]
    Differs,
    /// The run ends after the last input that the game can have.
    #[error("inputs after the end of the game")]
    Full,
}

impl KnownError {
    /// Returns the number of the error, as programs print it.
    pub fn number(self) -> u8
        ensures { result ≡ number_of self }
    {
        match self {
            KnownError::Gap => 1,
            KnownError::FromLeaver => 2,
            KnownError::Differs => 3,
            KnownError::Full => 4,
        }
    }

    /// Returns the name of the variant.
    pub fn name(self) -> &'static str {
        match self {
            KnownError::Gap => "Gap",
            KnownError::FromLeaver => "FromLeaver",
            KnownError::Differs => "Differs",
            KnownError::Full => "Full",
        }
    }
}
