//! Why a cast ends.

use std::alloc::AllocError;
use std::io;
use thiserror::Error;

/// Why a cast ends. What is in the folder then stays.
#[derive(Clone, Copy, Debug, PartialEq, Eq, Error)]
pub enum CastError {
    /// A file could not be read or written: the disk is full or broken, or the folder is gone.
    #[error("a file of the cast cannot be read or written: is the disk full, or the folder gone?")]
    Failed,
    /// A file is there, and has other bytes than this match gives it.
    #[error("the folder has another match, or a file of it was changed")]
    Differs,
    #[error("out of memory")]
    Memory,
}

impl CastError {
    /// The number of the refusal `cast N NAME`.
    pub fn number(self) -> u8 {
        match self {
            CastError::Failed => 1,
            CastError::Differs => 2,
            CastError::Memory => 3,
        }
    }

    /// The name of the refusal.
    pub fn name(self) -> &'static str {
        match self {
            CastError::Failed => "Failed",
            CastError::Differs => "Differs",
            CastError::Memory => "Memory",
        }
    }
}

impl From<AllocError> for CastError {
    ghost use Rattle.std.specs.Prelude.{◌≡◌};
    ghost use Rattle.c8_cast.specs.declared.error.CastError.TheVariants.{Memory};

    ghost from_gives = { λ _ result. result ≡ Memory };

    fn from(_: AllocError) -> CastError {
        CastError::Memory
    }
}

impl From<io::Error> for CastError {
    fn from(error: io::Error) -> CastError {
        match error.kind() {
            io::ErrorKind::OutOfMemory => CastError::Memory,
            _ => CastError::Failed,
        }
    }
}
