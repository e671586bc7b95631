//! A match as files that any web server carries: the rows that a watcher has, for any number of viewers.
//!
//! A [`Cast`] is given the rows of a watcher again and again, and keeps them in a [`Folder`]: 600 rows to a chunk, which never
//! changes once it is there, and the newer ones in a tail, which is replaced. [`FolderAt`] is a folder of the file system.
//! docs/FORMATS.md has the files, `specs/Cast.antt` what they spell, [`laws`] what follows.
#![tactic(auto)]

mod about;
mod cast;
mod error;
mod folder;
mod folder_at;
pub mod laws;
mod spelling;

pub use about::About;
pub use cast::Cast;
pub use error::CastError;
pub use folder::{Folder, Spelled};
pub use folder_at::FolderAt;
pub use spelling::CHUNK_ROWS;
