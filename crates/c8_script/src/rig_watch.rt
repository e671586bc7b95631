//! How the log of a match grows, for the person who waits.

use c8_game::{MOST_PLAYERS, Player};
use c8_rig::Watch;
use c8_transport::{Gate, Worker};
use std::io::Write;
use std::sync::Wait;
use std::sync::atomic::{AtomicBool, AtomicU64, Ordering};
use std::time::{Clock, Duration};
use std::{io, thread};

/// How many milliseconds the progress thread sleeps between two looks.
const PAUSE: u64 = 5;

/// How many seconds lie between two lines.
const EVERY: u64 = 1;

/// Counts the notes of each player, and notes the end of the match.
#[derive(Drop)]
pub(crate) struct Counts {
    notes: [AtomicU64; MOST_PLAYERS],
    is_over: AtomicBool,
}

impl Counts {
    pub(crate) fn new() -> Counts {
        Counts {
            notes: [
                AtomicU64::new(0),
                AtomicU64::new(0),
                AtomicU64::new(0),
                AtomicU64::new(0),
            ],
            is_over: AtomicBool::new(false),
        }
    }

    /// Makes `tell` end.
    pub(crate) fn end(&self) {
        self.is_over.store(true, Ordering::SeqCst);
    }

    /// Returns how many notes the players have reported, each after its last whole turn.
    fn all(&self) -> u64 {
        let mut all: u64 = 0;
        for notes in &self.notes {
            all = all.saturating_add(notes.load(Ordering::SeqCst));
        }
        all
    }

    /// Writes once a second how many notes the players have reported, as `12345 notes`, until the match is over. The
    /// error is the writer's.
    pub(crate) fn tell<R: Clock + Wait, E: Write>(&self, rt: &R, out: &mut E) -> io::Result<()> {
        let mut due = soon(rt);
        for _ in rt.forever() {
            if self.is_over.load(Ordering::SeqCst) {
                break;
            }
            if now(rt) >= due {
                writeln!(out, "{} notes", self.all())?;
                due = soon(rt);
            }
            thread::sleep(rt, Duration::from_millis(PAUSE));
        }
        Ok(())
    }
}

/// Counts notes, and holds no player back.
impl Gate for Counts {
    fn before(&self, _: Worker, _: u64) -> bool {
        true
    }

    fn after(&self, _: Worker, _: u64) {}
}

impl Watch for Counts {
    fn noted(&self, player: Player, notes: usize) {
        if let Some(count) = self.notes.get(player.place()) {
            count.store(notes as u64, Ordering::SeqCst);
        }
    }
}

/// Returns the time since the clock's start; 0 if the clock cannot be read.
fn now<R: Clock>(rt: &R) -> Duration {
    rt.monotonic().unwrap_or(Duration::from_secs(0))
}

/// Returns when the next line is due.
fn soon<R: Clock>(rt: &R) -> Duration {
    now(rt).saturating_add(Duration::from_secs(EVERY))
}
