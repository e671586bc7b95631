//! Marks: a few bytes of a machine's state, by which two peers notice that their machines differ. Equal marks prove
//! nothing.
//!
//! `state_bytes` writes a machine's state and `read_state` reads it back. `mark` is the beginning of the digest of
//! these bytes; a [`Marker`] makes one mark after another. `Marks` keeps the last sixteen marks with their frames. The
//! definitions are in `specs/StateBytes.antt` and `specs/Marks.antt`. Only `Marks::new` takes memory.
#![tactic(auto)]

mod checkpoint;
mod digest;
pub mod laws;
mod marker;
mod marks;
mod reading;

pub use checkpoint::Checkpoint;
pub use digest::{MARK_LENGTH, STATE_LENGTH, mark, state_bytes};
pub use marker::Marker;
pub use marks::{FrameMark, MARK_STEP, MARKS_LENGTH, Marks, are_marks};
pub use reading::read_state;
