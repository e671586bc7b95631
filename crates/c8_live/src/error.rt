//! The errors that end a session before its game ends, and why bytes are no packet.

ghost use Rattle.std.specs.Prelude.{◌≡◌};
ghost use Rattle.c8_live.specs.declared.error.SessionError.TheVariants.{Disk, Wire};

use c8_disk::DiskError;
use c8_transport::WireFailed;
use thiserror::Error;

/// Why a session cannot go on.
#[derive(Clone, Copy, Debug, PartialEq, Eq, Error)]
pub enum SessionError {
    /// The disk of the peer's journal failed.
    #[error("{0}")]
    Disk(DiskError),
    /// The transport failed.
    #[error("{0}")]
    Wire(WireFailed),
}

impl From<DiskError> for SessionError {
    ghost from_gives = { λ error result. result ≡ Disk error };

    fn from(error: DiskError) -> SessionError {
        SessionError::Disk(error)
    }
}

impl From<WireFailed> for SessionError {
    ghost from_gives = { λ error result. result ≡ Wire error };

    fn from(error: WireFailed) -> SessionError {
        SessionError::Wire(error)
    }
}

/// The bytes are more than a packet may have.
#[derive(Clone, Copy, Debug, PartialEq, Eq, Error)]
#[error("a packet has at most 175 bytes")]
pub struct TooLong;
