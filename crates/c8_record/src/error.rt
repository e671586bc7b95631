//! Why a journal is refused.
ghost use Rattle.std.specs.Prelude.{◌≡◌};
ghost use Rattle.c8_record.specs.Errors.{number_of};

use c8_disk::DiskError;
use thiserror::Error;

/// Why a journal is refused. `WrongGame` and `WrongPlayer` come first, in this order.
#[derive(Clone, Copy, Debug, PartialEq, Eq, Hash, Error)]
pub enum ReplayError {
    /// The first record is a HEAD of another game or another room.
    #[error("a journal of another game or room")]
    WrongGame,
    /// The first record is a HEAD of another player.
    #[error("a journal of another player")]
    WrongPlayer,
    /// The body with this number, from 0, is the first that does not spell a record, or whose record is
    /// not allowed there.
    #[error("body {0} is no record that may stand there")]
    BadRecord(usize),
    /// The disk failed during the replay.
    #[error("the disk failed")]
    Disk(DiskError),
}

impl ReplayError {
    /// Returns the number that programs print for an opening that is refused for this reason. Openings
    /// have further reasons, with numbers of their own.
    pub fn number(self) -> u8
        ensures { result ≡ number_of self }
    {
        match self {
            ReplayError::WrongGame => 1,
            ReplayError::WrongPlayer => 2,
            ReplayError::BadRecord(_) => 3,
            ReplayError::Disk(_) => 6,
        }
    }

    /// Returns the name of the variant.
    pub fn name(self) -> &'static str {
        match self {
            ReplayError::WrongGame => "WrongGame",
            ReplayError::WrongPlayer => "WrongPlayer",
            ReplayError::BadRecord(_) => "BadRecord",
            ReplayError::Disk(_) => "Disk",
        }
    }
}
