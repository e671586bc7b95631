//! Between a game and a terminal: a CHIP-8 screen as text, the bytes of a keyboard as held keys, and the clock of frames.
//! Nothing here touches the system or takes memory.
//!
//! A row of text shows two rows of points, so a screen is 16 rows of 64 cells, and points are square. [`Painter`] writes the
//! bytes of the rows of text that changed since the last painting. [`Decoder`] decodes the bytes that the terminal sends
//! into [`Signal`]s, and [`Held`] turns signals into the keys of the keypad that are held in each frame, even if the
//! terminal does not report releases. A [`Beat`] says when each frame is due, and [`Lateness`] counts how late frames have
//! begun (`specs/Beats.antt`). A [`Chime`] rings the bell in place of a tone.
//!
//! Below the picture is a row of text (`text_row`). [`KeyWords`] are the keys of a player in words, from the text of the game or
//! from its masks, [`KeyRow`] shows those of all players, and a [`Reminder`] says when. No contract says what these four write:
//! c8_part_tests does.
//!
//! Contracts say what a terminal does that reads the bytes: `specs/Terminal.antt` defines a small terminal,
//! `specs/Picture.antt` when it shows a set of points, `specs/Painting.antt` the bytes. For the keyboard,
//! `specs/Keyboard.antt` maps characters to keys, `specs/Sent.antt` says what terminals send and which signals that
//! gives, `specs/Decoding.antt` what a byte does to the decoder, `specs/Strokes.antt` when a key counts as held.
//! [`laws`] has what follows for whole runs.
#![tactic(auto)]

mod beat;
mod chime;
mod decoder;
mod held;
mod key_row;
mod key_words;
mod keyboard;
pub mod laws;
mod line;
mod painter;
mod press;
mod reminder;
mod sequence;
mod signal;
mod text_row;

pub use beat::{Beat, Lateness};
pub use chime::Chime;
pub use decoder::Decoder;
pub use held::Held;
pub use key_row::KeyRow;
pub use key_words::{KeyWords, LONGEST_WORDS};
pub use line::{LONGEST_LINE, LONGEST_PAINTING, TEXT_ROWS};
pub use painter::Painter;
pub use reminder::Reminder;
pub use signal::Signal;
pub use text_row::{
    CLEAR_ROW, FIRST_ROW, LONGEST_ROW, LONGEST_WRITTEN, NARROWEST, WIDEST, rows_of, rows_of_line,
};

/// The bytes to write before the first painting: switch to the alternate screen, hide the cursor, clear.
pub const ENTER: &[u8] = b"\x1b[?1049h\x1b[?25l\x1b[2J";

/// The bytes to write after the last painting: show the cursor, and switch back to the main screen as it was before
/// [`ENTER`].
pub const LEAVE: &[u8] = b"\x1b[?25h\x1b[?1049l";
