//! Paces the threads of a peer, and ends them.
use c8_transport::{Gate, Worker};
use c8_udp::Bell;
use std::sync::atomic::{AtomicBool, AtomicU32, Ordering};
use std::thread;
use std::time::{Clock, Duration};

/// How many microseconds the game thread sleeps after a turn.
const GAME_PAUSE: u64 = 1000;

/// How many it sleeps while nothing is confirmed, so that a peer that waits takes little of a processor.
const IDLE_PAUSE: u64 = 10_000;

/// After this many looks of the viewer without a newly confirmed frame the game thread is idle: after five seconds.
const IDLE_LOOKS: u32 = 1000;

/// How many milliseconds a viewer's thread sleeps between two looks.
pub const VIEWER_PAUSE: u64 = 5;

/// The most checks of the game thread for the viewer's thread. As a rule that thread runs at once.
const MOST_LOOKS: u16 = 5000;

/// Paces both threads. After each turn of the game thread it rings the bell of the wire, so that the net thread sends
/// the turn's datagrams, and the game thread sleeps; longer while the viewer sees that nothing is confirmed. The net
/// thread waits at its wire. The game thread ends when the net thread has ended. The net thread ends one turn after the
/// game thread, so that it sends the last datagrams.
#[derive(Drop)]
pub struct Pace<'r, R> {
    rt: &'r R,
    /// Ends the wait of the net thread, if there is one.
    bell: Option<Bell>,
    has_viewer: AtomicBool,
    is_game_over: AtomicBool,
    is_last_sent: AtomicBool,
    is_net_over: AtomicBool,
    /// How many frames the viewer saw confirmed, and how often in a row.
    confirmed: AtomicU32,
    looks: AtomicU32,
}

impl<'r, R: Clock> Pace<'r, R> {
    /// Neither thread has ended. `bell` ends the wait of the net thread, if there is one.
    pub fn new(rt: &'r R, bell: Option<Bell>) -> Pace<'r, R> {
        Pace {
            rt,
            bell,
            has_viewer: AtomicBool::new(false),
            is_game_over: AtomicBool::new(false),
            is_last_sent: AtomicBool::new(false),
            is_net_over: AtomicBool::new(false),
            confirmed: AtomicU32::new(0),
            looks: AtomicU32::new(0),
        }
    }

    /// Notes that the viewer's thread runs.
    pub(crate) fn greet(&self) {
        self.has_viewer.store(true, Ordering::SeqCst);
    }

    /// Waits some seconds for the viewer's thread, and returns whether it runs. The limit is needed: if the system
    /// starts no thread, `thread::join` runs the viewer after the caller, which would wait forever.
    pub(crate) fn has_viewer(&self) -> bool {
        for _ in 0..MOST_LOOKS {
            if self.has_viewer.load(Ordering::SeqCst) {
                return true;
            }
            thread::sleep(self.rt, Duration::from_micros(GAME_PAUSE));
        }
        false
    }

    /// Notes how many frames the viewer's thread sees confirmed.
    pub fn see(&self, confirmed: u32) {
        let looks = if self.confirmed.swap(confirmed, Ordering::SeqCst) == confirmed {
            self.looks.load(Ordering::SeqCst).saturating_add(1)
        } else {
            0
        };
        self.looks.store(looks, Ordering::SeqCst);
    }

    /// How many microseconds the game thread sleeps now.
    fn pause(&self) -> u64 {
        if self.looks.load(Ordering::SeqCst) > IDLE_LOOKS {
            IDLE_PAUSE
        } else {
            GAME_PAUSE
        }
    }

    /// Notes that a worker has ended.
    pub fn end(&self, worker: Worker) {
        match worker {
            Worker::Net => self.is_net_over.store(true, Ordering::SeqCst),
            Worker::Game => {
                self.is_game_over.store(true, Ordering::SeqCst);
                self.ring();
            }
        }
    }

    /// Ends the wait of the net thread.
    fn ring(&self) {
        if let Some(bell) = &self.bell {
            bell.ring();
        }
    }

    /// Returns whether the game thread has ended.
    pub fn is_game_over(&self) -> bool {
        self.is_game_over.load(Ordering::SeqCst)
    }
}

impl<'r, R: Clock> Gate for Pace<'r, R> {
    fn before(&self, worker: Worker, _turn: u64) -> bool {
        match worker {
            Worker::Net => !self.is_game_over() || !self.is_last_sent.swap(true, Ordering::SeqCst),
            Worker::Game => !self.is_net_over.load(Ordering::SeqCst),
        }
    }

    fn after(&self, worker: Worker, _turn: u64) {
        if worker == Worker::Game {
            self.ring();
            thread::sleep(self.rt, Duration::from_micros(self.pause()));
        }
    }
}
