//! Why a log refuses a call.
ghost use Rattle.std.specs.Prelude.{◌≡◌};
ghost use Rattle.c8_log.specs.Errors.{number_of};

use c8_disk::DiskError;
use thiserror::Error;

/// Why a log refuses a call. After any of these the log is down: `append` and `read` return `Down` until
/// the log is opened again.
#[derive(Clone, Copy, Debug, PartialEq, Eq, Hash, Error)]
pub enum LogError {
    /// The disk failed. A body that was being appended may count or not: the next opening decides.
    #[error("the disk failed")]
    Failed,
    /// There is no room for one more body and the gate after it; or, in `open`, for the gate after the
    /// last body. Nothing was written.
    #[error("the log is full")]
    Full,
    /// An earlier `append` or `read` failed. `open` never returns this.
    #[error("the log is down until it is opened again")]
    Down,
}

impl LogError {
    /// Returns the number that programs print for this error.
    pub fn number(self) -> u8
        ensures { result ≡ number_of self }
    {
        match self {
            LogError::Failed => 1,
            LogError::Full => 2,
            LogError::Down => 3,
        }
    }

    /// Returns the name of the variant.
    pub fn name(self) -> &'static str {
        match self {
            LogError::Failed => "Failed",
            LogError::Full => "Full",
            LogError::Down => "Down",
        }
    }
}

impl From<DiskError> for LogError {
    ghost use Rattle.c8_log.specs.Log.{log_error};

    ghost from_gives = { λ error result. result ≡ log_error error };

    fn from(error: DiskError) -> LogError {
        match error {
            DiskError::Failed => LogError::Failed,
            DiskError::Full => LogError::Full,
        }
    }
}
