//! Reads a game from its text.

pub mod draft;
pub mod field;
pub mod lines;
pub mod value;
