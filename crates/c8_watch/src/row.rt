//! The row of text below the picture of a watched match.

use arrayvec::ArrayVec;
use c8_game::Player;
use c8_live::write_relaying;
use c8_terminal::{CLEAR_ROW, NARROWEST};
use c8_transport::{Losses, Relaying};
use c8_wire::Watcher;
use std::io;
use std::io::Write;
use std::time::Duration;

/// The most bytes of the row, with those that move the cursor.
const LONGEST: usize = 80;

/// After how many seconds without a new frame the row says so, and after how many without a first one what may be wrong.
const QUIET: u64 = 2;

const NO_ANSWER: u64 = 5;

/// How far a watched match is. It changes once a second.
#[derive(Drop)]
pub struct WatchRow {
    seat: Watcher,
    /// The number of frames of the game.
    frames: u32,
    /// How many frames were taken, and when the last of them came, or the start.
    count: u32,
    since: Duration,
    losses: Losses,
    relaying: Relaying,
    /// When the row may change; `None` before the first one.
    due: Option<Duration>,
    shown: ArrayVec<u8, LONGEST>,
}

impl WatchRow {
    /// The row of a watcher in a seat, who has begun now, for a game of so many frames.
    pub fn new(now: Duration, seat: Watcher, frames: u32) -> WatchRow {
        WatchRow {
            seat,
            frames,
            count: 0,
            since: now,
            losses: Losses::default(),
            relaying: Relaying::Direct,
            due: None,
            shown: ArrayVec::new(),
        }
    }

    /// Notes what the wire has turned away so far, and hears of a relay.
    pub fn hear(&mut self, losses: Losses, relaying: Relaying) {
        self.losses = losses;
        self.relaying = relaying;
    }

    /// Notes how many frames were taken.
    pub fn note(&mut self, now: Duration, count: u32) {
        if count != self.count {
            self.count = count;
            self.since = now;
        }
    }

    /// Returns the bytes that make the terminal show the row, as `412 of 36000 frames  Escape ends`; none if it shows that
    /// already, or if the last change is less than a second ago. `is_whole`: the terminal may show something else.
    pub fn row(&mut self, now: Duration, is_whole: bool) -> &[u8] {
        let is_due = self.due.is_none_or(|due| now >= due);
        if is_due {
            self.due = Some(now.saturating_add(Duration::from_secs(1)));
            let row = self.composed(now);
            let is_same = row.as_slice() == self.shown.as_slice();
            self.shown = row;
            if !is_same || is_whole {
                return self.shown.as_slice();
            }
        } else if is_whole {
            return self.shown.as_slice();
        }
        &[]
    }

    /// The row: each part that fits beside those before it, as a whole.
    fn composed(&self, now: Duration) -> ArrayVec<u8, LONGEST> {
        let mut row = ArrayVec::new();
        let _ = row.write_all(CLEAR_ROW);
        let most = CLEAR_ROW.len().saturating_add(NARROWEST);
        for part in 0..4 {
            let before = row.len();
            if self.write_part(&mut row, part, now).is_err() || row.len() > most {
                row.truncate(before);
            }
        }
        row
    }

    /// Writes a part: how many frames there are, what the relay says, for how long nothing came, how the command ends.
    fn write_part<E: Write>(&self, out: &mut E, part: u8, now: Duration) -> io::Result<()> {
        match part {
            0 => write!(out, "{} of {} frames", self.count, self.frames),
            1 => match self.relaying {
                Relaying::Taken => write!(out, "  seat {} is taken", self.seat.number),
                relaying => write_relaying(out, "  ", relaying, Player::CHAIR),
            },
            2 => self.write_silence(out, now.saturating_sub(self.since).as_secs()),
            _ => write!(out, "  Escape ends"),
        }
    }

    /// Writes for how many seconds no frame came, and what may be wrong before the first.
    fn write_silence<E: Write>(&self, out: &mut E, seconds: u64) -> io::Result<()> {
        if self.count >= self.frames || seconds < QUIET {
            return Ok(());
        }
        if self.losses.unsealed > 0 {
            return write!(out, "  packets come with another secret, game or room");
        }
        if self.count == 0 && seconds >= NO_ANSWER {
            return write!(out, "  no answer for {seconds} s: game, room, secret?");
        }
        write!(out, "  nothing new for {seconds} s")
    }
}
