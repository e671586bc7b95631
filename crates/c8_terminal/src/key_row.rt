//! The row of text below the screen of a person who plays alone: the keys of all players.

use crate::key_words::KeyWords;
use crate::reminder::Reminder;
use crate::text_row::{CLEAR_ROW, LONGEST_ROW, LONGEST_WRITTEN, NARROWEST, WIDEST};
use arrayvec::ArrayVec;
use c8_game::{Game, MOST_PLAYERS, Player};
use std::io::Write;
use std::time::Duration;

/// What stands behind the keys, if it fits.
const ENDS: &[u8] = b"  Escape ends";

/// The keys of all players of a game, for ten seconds and for ten seconds after the person asks.
#[derive(Drop)]
pub struct KeyRow {
    keys: [KeyWords; MOST_PLAYERS],
    /// How many columns the terminal has.
    columns: usize,
    reminder: Reminder,
    /// What the terminal shows in the row.
    shown: ArrayVec<u8, LONGEST_ROW>,
    /// What the last frame wrote.
    written: ArrayVec<u8, LONGEST_WRITTEN>,
}

impl KeyRow {
    /// The row of a game whose file has this text, on so many columns, at least 64 and at most 200.
    pub fn new(game: &Game, text: &[u8], columns: usize) -> KeyRow {
        KeyRow {
            keys: [
                words_of(game, text, 1),
                words_of(game, text, 2),
                words_of(game, text, 3),
                words_of(game, text, 4),
            ],
            columns: columns.max(NARROWEST).min(WIDEST),
            reminder: Reminder::new(),
            shown: ArrayVec::new(),
            written: ArrayVec::new(),
        }
    }

    /// Shows the keys for ten seconds from the next row on.
    pub fn remind(&mut self) {
        self.reminder.ask();
    }

    /// Forgets what the terminal shows in the row.
    pub fn forget(&mut self) {
        self.shown.clear();
    }

    /// Returns the bytes that make the terminal show the keys or none of them, as `1: 1 up, q down  2: 4 up, r down`; none if
    /// it shows that already. A bell follows them. What does not fit the columns is left out as a whole.
    pub fn row(&mut self, now: Duration, bell: &[u8]) -> &[u8] {
        self.reminder.note(now, true);
        let mut row = ArrayVec::new();
        let _ = row.write_all(CLEAR_ROW);
        if self.reminder.is_shown() {
            self.write_keys(&mut row);
        }
        self.written.clear();
        if row.as_slice() != self.shown.as_slice() {
            let _ = self.written.write_all(&row);
            self.shown = row;
        }
        let _ = self.written.write_all(bell);
        self.written.as_slice()
    }

    /// Writes the keys of each player, and how the game ends, if that fits.
    fn write_keys(&self, row: &mut ArrayVec<u8, LONGEST_ROW>) {
        let most = CLEAR_ROW.len().saturating_add(self.columns);
        for place in 0..MOST_PLAYERS {
            let (before, keys) = (row.len(), self.keys[place].bytes());
            let number = place.saturating_add(1);
            let gap = if before == CLEAR_ROW.len() { "" } else { "  " };
            let is_written = keys.is_empty()
                || write!(row, "{gap}{number}: ").is_ok() && row.write_all(keys).is_ok();
            if !is_written || row.len() > most {
                row.truncate(before);
            }
        }
        let before = row.len();
        if before > CLEAR_ROW.len() && (row.write_all(ENDS).is_err() || row.len() > most) {
            row.truncate(before);
        }
    }
}

/// The keys of a player in words; none of one who is not in the game.
fn words_of(game: &Game, text: &[u8], number: u8) -> KeyWords {
    match Player::new(number) {
        Some(player) if number <= game.players() => {
            KeyWords::in_text(text, player).or_letters(game, player)
        }
        _ => KeyWords::none(),
    }
}
