//! Why texts are not read from their files.
use crate::refusal::Refusal;
use thiserror::Error;

/// Why a text was not read from its file.
#[derive(Clone, Copy, Debug, PartialEq, Eq, Error)]
pub enum TextError {
    #[error("a file that cannot be read, or has more than 16777216 bytes")]
    Failed,
    #[error("out of memory")]
    Memory,
}

/// Why the two texts of a command were not both read.
#[derive(Clone, Copy, Debug, PartialEq, Eq, Error)]
pub enum TextsError {
    /// The first text.
    #[error("a file that cannot be read, or has more than 16777216 bytes")]
    FirstFailed,
    /// The second text.
    #[error("a file that cannot be read, or has more than 16777216 bytes")]
    SecondFailed,
    #[error("out of memory for the first text")]
    FirstMemory,
    #[error("out of memory for the second text")]
    SecondMemory,
}

impl TextsError {
    /// Returns the refusal: the disk's for a file, and for memory that of the text for which it ran out.
    pub fn refusal(self, first: Refusal, second: Refusal) -> Refusal {
        match self {
            TextsError::FirstFailed | TextsError::SecondFailed => Refusal::DISK,
            TextsError::FirstMemory => first,
            TextsError::SecondMemory => second,
        }
    }
}
