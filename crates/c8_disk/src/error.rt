//! Why a call of a disk is refused, or why a file is not opened as a disk.
ghost use Rattle.std.specs.Prelude.{◌≡◌};
ghost use Rattle.c8_disk.specs.Errors.{disk_number_of, file_number_of};
ghost use Rattle.c8_disk.specs.declared.error.FileError.TheVariants.{Failed, Memory};

use std::alloc::AllocError;
use std::io;
use thiserror::Error;

/// Why a call of a disk was refused.
#[derive(Clone, Copy, Debug, PartialEq, Eq, Hash, Error)]
pub enum DiskError {
    /// The disk failed in this call.
    #[error("the disk failed")]
    Failed,
    /// The write would go beyond the disk's capacity. Nothing was written.
    #[error("the disk is full")]
    Full,
}

impl DiskError {
    /// Returns the number of the error, as programs print it.
    pub fn number(self) -> u8
        ensures { result ≡ disk_number_of self }
    {
        match self {
            DiskError::Failed => 1,
            DiskError::Full => 2,
        }
    }

    /// Returns the name of the variant.
    pub fn name(self) -> &'static str {
        match self {
            DiskError::Failed => "Failed",
            DiskError::Full => "Full",
        }
    }
}

/// Why a file was not opened as a disk. No byte of it was changed.
#[derive(Clone, Copy, Debug, PartialEq, Eq, Hash, Error)]
pub enum FileError {
    /// A call of the system failed, or the path is not a regular file that can be locked, read and written.
    #[error("the file cannot be used")]
    Failed,
    /// The file is longer than the capacity.
    #[error("the file is longer than the disk's capacity")]
    Full,
    /// The memory for the capacity was refused.
    #[error("out of memory")]
    Memory,
    /// Another disk has the file open, in this program or another.
    #[error("the file is open elsewhere")]
    Locked,
}

impl FileError {
    /// Returns the number of the error, as programs print it.
    pub fn number(self) -> u8
        ensures { result ≡ file_number_of self }
    {
        match self {
            FileError::Failed => 1,
            FileError::Full => 2,
            FileError::Memory => 3,
            FileError::Locked => 4,
        }
    }

    /// Returns the name of the variant.
    pub fn name(self) -> &'static str {
        match self {
            FileError::Failed => "Failed",
            FileError::Full => "Full",
            FileError::Memory => "Memory",
            FileError::Locked => "Locked",
        }
    }
}

impl From<AllocError> for FileError {
    ghost from_gives = { λ _ error. error ≡ Memory };

    fn from(_: AllocError) -> FileError {
        FileError::Memory
    }
}

impl From<io::Error> for FileError {
    ghost from_gives = { λ _ error. error ≡ Failed };

    fn from(_: io::Error) -> FileError {
        FileError::Failed
    }
}
