//! A disk that may stop, fail or crash at any moment, inside any call.
//!
//! [`Disk`] is a trait whose contract is the model of a disk: what a read gives, and what a crash may leave. Its terms
//! are defined in `specs/Disk.antt`. [`MemDisk`] is such a disk in memory, which can be stopped and crashed.
//! [`FileDisk`] is one in a file: the operating system's, or any with the calls of [`SystemFile`]. The images of both
//! follow from what they held at first and each call since (`specs/Past.antt`).
#![tactic(auto)]

mod budget;
mod bytes;
mod call;
mod disk;
mod error;
mod file;
mod ghost_list;
pub mod laws;
mod mem_disk;

pub use disk::{Arm, Disk, LONGEST_WRITE};
pub use error::{DiskError, FileError};
pub use file::{FileDisk, OpenedFile, SystemFile};
pub use ghost_list::GhostList;
pub use mem_disk::MemDisk;
