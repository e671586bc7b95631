//! The command `replay`: reads the journal of a player, and shows the match that it confirms.
//!
//! [`show_journal`] takes the text of a game and the bytes of a journal, and returns the machine after the confirmed
//! frames, their rows as key lines, or a page that shows them. [`replay`] prints that. [`replay_given`] reads both
//! files, and with `--screen` plays the match on the terminal first.
//!
//! `specs/Replay.antt` says what the command answers, `specs/KeyText.antt` how rows are printed. c8_audit says which
//! journal an image keeps, and why it is refused (`Journal.antt`). [`laws`] has what follows.
#![tactic(auto)]

mod arguments;
mod command;
mod error;
mod help;
mod key_text;
pub mod laws;
mod page;
mod page_text;
mod screening;
mod seat;
mod showing;
mod strokes;

pub use arguments::{Asked, Form, REPLAY, Wish};
pub use command::{replay, replay_given};
pub use error::ReplayFault;
pub use showing::{Shown, show_journal};
