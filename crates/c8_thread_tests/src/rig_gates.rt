//! Gates.
use c8_game::Player;
use c8_rig::Watch;
use c8_transport::{Gate, Worker};
use std::sync::atomic::{AtomicU64, Ordering};
use std::thread::sleep;
use std::time::{Clock, Duration};

/// Lets each worker make `most` turns, counts those of all, and keeps how many notes each player has.
#[derive(Drop)]
pub(crate) struct Turns {
    pub(crate) most: u64,
    pub(crate) made: AtomicU64,
    pub(crate) notes: [AtomicU64; 4],
}

impl Turns {
    pub(crate) fn new(most: u64) -> Turns {
        Turns {
            most,
            made: AtomicU64::new(0),
            notes: [
                AtomicU64::new(0),
                AtomicU64::new(0),
                AtomicU64::new(0),
                AtomicU64::new(0),
            ],
        }
    }

    /// How many notes the player at a place has.
    pub(crate) fn notes(&self, place: usize) -> u64 {
        match self.notes.get(place) {
            Some(notes) => notes.load(Ordering::SeqCst),
            None => 0,
        }
    }
}

impl Gate for Turns {
    fn before(&self, _: Worker, turn: u64) -> bool {
        turn < self.most
    }

    fn after(&self, _: Worker, _: u64) {
        self.made.fetch_add(1, Ordering::SeqCst);
    }
}

impl Watch for Turns {
    fn noted(&self, player: Player, notes: usize) {
        if let Some(kept) = self.notes.get(player.place()) {
            kept.store(notes as u64, Ordering::SeqCst);
        }
    }
}

/// How many microseconds a worker sleeps between two checks.
const PAUSE: u64 = 100;

/// How often a worker checks whether another one has made its first turn: several seconds in all, because the
/// processors may be busy.
const LOOKS: u32 = 100_000;

/// Lets no worker make its second turn before `workers` have made their first.
#[derive(Drop)]
pub(crate) struct Meeting<'r, R> {
    pub(crate) rt: &'r R,
    pub(crate) workers: u64,
    pub(crate) begun: AtomicU64,
    pub(crate) turns: AtomicU64,
}

impl<'r, R: Clock> Meeting<'r, R> {
    pub(crate) fn new(rt: &'r R, workers: u64) -> Meeting<'r, R> {
        Meeting {
            rt,
            workers,
            begun: AtomicU64::new(0),
            turns: AtomicU64::new(0),
        }
    }

    /// How many turns all have made.
    pub(crate) fn turns(&self) -> u64 {
        self.turns.load(Ordering::SeqCst)
    }

    /// Waits for the first turns of all, and returns whether they came.
    fn are_all_there(&self) -> bool {
        for _ in 0..LOOKS {
            if self.begun.load(Ordering::SeqCst) >= self.workers {
                return true;
            }
            sleep(self.rt, Duration::from_micros(PAUSE));
        }
        false
    }
}

impl<R: Clock> Gate for Meeting<'_, R> {
    fn before(&self, _: Worker, turn: u64) -> bool {
        turn == 0 || self.are_all_there()
    }

    fn after(&self, _: Worker, turn: u64) {
        if turn == 0 {
            self.begun.fetch_add(1, Ordering::SeqCst);
        }
        self.turns.fetch_add(1, Ordering::SeqCst);
    }
}

impl<R: Clock> Watch for Meeting<'_, R> {
    fn noted(&self, _: Player, _: usize) {}
}
