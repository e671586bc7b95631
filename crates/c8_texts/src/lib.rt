//! The keys of players as text, and a game that is played alone from it.
//!
//! [`play`] plays a game by key lines: each is one frame, and has a key set for each player. [`key_sets`] reads the
//! keys of one player, one key set a line. [`run`] is the command `run`: it plays the game of a text, and writes the
//! report of its machine ([`write_report`]); [`run_files`] takes both texts from files. [`faulty_key_line`] and
//! [`faulty_key_set`] find the line that is refused, [`game_site`] and [`key_sets_site`] where it is.
//!
//! The command `show`: the fields of a datagram, from its bytes in hexadecimal.
#![tactic(auto)]

mod command;
mod datagram;
mod error;
mod explain;
mod lines;
mod report;
mod sets;
mod show_error;

pub use command::{run, run_files};
pub use datagram::show;
pub use error::{KeysError, RunError};
pub use explain::{game_site, key_sets_site};
pub use lines::{Played, faulty_key_line, play};
pub use report::write_report;
pub use sets::{faulty_key_set, key_sets};
pub use show_error::{HexError, ShowError};
