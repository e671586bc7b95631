//! Gates.
use c8_transport::{Gate, Worker};
use std::sync::atomic::{AtomicBool, AtomicU64, Ordering};
use std::thread::sleep;
use std::time::{Clock, Duration};

/// Lets a worker make this many turns.
#[derive(Drop)]
pub(crate) struct Turns {
    pub(crate) most: u64,
}

impl Gate for Turns {
    fn before(&self, _: Worker, turn: u64) -> bool {
        turn < self.most
    }

    fn after(&self, _: Worker, _: u64) {}
}

/// How many microseconds a worker sleeps between two checks.
const PAUSE: u64 = 100;

/// How often a worker checks whether the other one has made its first turn, with a sleep between checks: several
/// seconds in all, because the processors may be busy.
const LOOKS: u32 = 100_000;

/// Lets each worker make two turns, the second one once the other has made its first.
#[derive(Drop)]
pub(crate) struct Meeting<'r, R> {
    rt: &'r R,
    net_has_begun: AtomicBool,
    game_has_begun: AtomicBool,
    turns: AtomicU64,
}

impl<'r, R: Clock> Meeting<'r, R> {
    pub(crate) fn new(rt: &'r R) -> Meeting<'r, R> {
        Meeting {
            rt,
            net_has_begun: AtomicBool::new(false),
            game_has_begun: AtomicBool::new(false),
            turns: AtomicU64::new(0),
        }
    }

    /// How many turns both have made.
    pub(crate) fn turns(&self) -> u64 {
        self.turns.load(Ordering::SeqCst)
    }

    /// The flag that says whether a worker has made its first turn.
    fn begun(&self, worker: Worker) -> &AtomicBool {
        match worker {
            Worker::Net => &self.net_has_begun,
            Worker::Game => &self.game_has_begun,
        }
    }

    /// Waits for the first turn of the other worker, and returns whether it came.
    fn is_joined(&self, worker: Worker) -> bool {
        let other = match worker {
            Worker::Net => Worker::Game,
            Worker::Game => Worker::Net,
        };
        for _ in 0..LOOKS {
            if self.begun(other).load(Ordering::SeqCst) {
                return true;
            }
            sleep(self.rt, Duration::from_micros(PAUSE));
        }
        false
    }
}

impl<R: Clock> Gate for Meeting<'_, R> {
    fn before(&self, worker: Worker, turn: u64) -> bool {
        turn == 0 || turn == 1 && self.is_joined(worker)
    }

    fn after(&self, worker: Worker, _: u64) {
        self.begun(worker).store(true, Ordering::SeqCst);
        self.turns.fetch_add(1, Ordering::SeqCst);
    }
}
