//! Why a run ends before all its events.
ghost use Rattle.std.specs.Prelude.{◌≡◌};

use crate::answer::Report;
use thiserror::Error;

/// Why `World::run` ends early.
#[derive(Debug, Error, Drop)]
pub enum RunError {
    /// Memory was refused at an event. The report has an answer for each event before it, and these have happened. The
    /// event itself changed nothing, with one exception: if it was to open a peer that was down, the peer may be away.
    #[error("out of memory")]
    Memory(Report),
}

impl RunError {
    /// Returns the number of the error, as programs print it.
    pub fn number(&self) -> u8
        ensures { result ≡ 1 }
    {
        match self {
            RunError::Memory(_) => 1,
        }
    }

    pub fn name(&self) -> &'static str {
        match self {
            RunError::Memory(_) => "Memory",
        }
    }
}
