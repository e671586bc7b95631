//! Why a script is refused, and what the commands `sim` and `rig` refuse.

ghost use Rattle.std.specs.Prelude.{◌≡◌};
ghost use Rattle.c8_script.specs.Errors.{script_error_number, sim_part, sim_error_number};
ghost use Rattle.c8_script.specs.declared.error.ScriptError.TheVariants.{Memory};
ghost use Rattle.c8_script.specs.RigErrors.{rig_part, rig_error_number};

use c8_command::{Part, Refusal};
use c8_game::GameError;
use std::alloc::AllocError;
use thiserror::Error;

/// Why a script is refused.
#[derive(Clone, Copy, Debug, PartialEq, Eq, Error)]
pub enum ScriptError {
    #[error("a line that is no event")]
    Line,
    #[error("out of memory")]
    Memory,
}

impl ScriptError {
    /// Returns the number of the refusal.
    pub fn number(self) -> u8
        ensures { result ≡ script_error_number self }
    {
        match self {
            ScriptError::Line => 1,
            ScriptError::Memory => 2,
        }
    }

    /// Returns the name of the refusal.
    pub fn name(self) -> &'static str {
        match self {
            ScriptError::Line => "Line",
            ScriptError::Memory => "Memory",
        }
    }
}

impl From<AllocError> for ScriptError {
    ghost from_gives = { λ _ error. error ≡ Memory };

    fn from(_: AllocError) -> ScriptError {
        ScriptError::Memory
    }
}

/// Why the command `sim` refuses its texts.
#[derive(Clone, Copy, Debug, PartialEq, Eq, Error)]
pub enum SimError {
    /// The text of the game has a fault.
    #[error("{0}")]
    Game(GameError),
    /// The script has a fault, or memory ran out while it was run.
    #[error("{0}")]
    Script(ScriptError),
}

impl From<SimError> for Refusal {
    ghost from_gives = { λ error refusal. (refusal.part ≡ sim_part error) × (refusal.number ≡ sim_error_number error) };

    fn from(error: SimError) -> Refusal {
        match error {
            SimError::Game(error) => Refusal {
                part: Part::Game,
                number: error.number(),
                name: error.name(),
            },
            SimError::Script(error) => Refusal {
                part: Part::Script,
                number: error.number(),
                name: error.name(),
            },
        }
    }
}

/// Why the command `rig` refuses, or comes to no verdict.
#[derive(Clone, Copy, Debug, PartialEq, Eq, Error)]
pub enum RigError {
    /// The text of the game has a fault, or memory ran out while it was read.
    #[error("{0}")]
    Game(GameError),
    /// Memory ran out for the match or for its script.
    #[error("out of memory")]
    Memory,
    /// The script cannot be written.
    #[error("a file that cannot be written")]
    Script,
}

impl From<RigError> for Refusal {
    ghost from_gives = { λ error refusal. (refusal.part ≡ rig_part error) × (refusal.number ≡ rig_error_number error) };

    fn from(error: RigError) -> Refusal {
        match error {
            RigError::Game(error) => Refusal {
                part: Part::Game,
                number: error.number(),
                name: error.name(),
            },
            RigError::Memory => Refusal::MEMORY,
            RigError::Script => Refusal::DISK,
        }
    }
}
