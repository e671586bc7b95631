//! How far a session is, once a second, for the person who waits.

use crate::counters::Standing;
use c8_game::{MOST_PLAYERS, Player};
use std::time::Duration;

/// How many seconds lie between two readings.
const EVERY: u64 = 1;

/// Follows the standings of a session, and gives a reading once a second. All times are of one clock.
#[derive(Clone, Copy)]
pub struct Gauge {
    start: Duration,
    /// When the next reading is due.
    due: Duration,
    /// When each player was last heard, or the start, by place; and in how many turns it had been heard by then.
    heard: [Duration; MOST_PLAYERS],
    turns: [u64; MOST_PLAYERS],
    /// When the first datagram of each player came, or the start.
    met: [Duration; MOST_PLAYERS],
    /// The rollbacks up to the last reading, and the longest since then.
    rollbacks: u64,
    longest: u64,
}

/// What changed in the last second.
#[derive(Clone, Copy, Default)]
pub struct Reading {
    /// The rollbacks since the last reading, and the most frames that one of them simulated again.
    pub rollbacks: u64,
    pub longest: u64,
    /// How many milliseconds each player has been silent, by place.
    pub silent: [u128; MOST_PLAYERS],
    /// How many milliseconds ago the first datagram of each player came, by place; `None` if none came, or the first came
    /// within a second after the start.
    pub met: [Option<u128>; MOST_PLAYERS],
}

impl Gauge {
    /// Starts now, with a first reading at `due`.
    pub fn new(now: Duration, due: Duration) -> Gauge {
        Gauge {
            start: now,
            due,
            heard: [now; MOST_PLAYERS],
            turns: [0; MOST_PLAYERS],
            met: [now; MOST_PLAYERS],
            rollbacks: 0,
            longest: 0,
        }
    }

    /// The time of the reading after one at `now`.
    pub fn next(now: Duration) -> Duration {
        now.saturating_add(Duration::from_secs(EVERY))
    }

    /// Notes who was heard since the last call, and the longest rollback. Returns a reading if one is due.
    pub fn note(&mut self, now: Duration, standing: &Standing) -> Option<Reading> {
        self.take_in(now, standing);
        if now < self.due {
            return None;
        }
        self.due = Gauge::next(now);
        Some(self.read(now, standing))
    }

    /// Notes the same, and returns a reading, due or not.
    pub fn note_now(&mut self, now: Duration, standing: &Standing) -> Reading {
        self.take_in(now, standing);
        self.read(now, standing)
    }

    /// Notes who was heard since the last call, and the longest rollback.
    fn take_in(&mut self, now: Duration, standing: &Standing) {
        self.longest = self.longest.max(standing.longest);
        for place in 0..MOST_PLAYERS {
            if self.turns[place] != standing.heard[place] {
                if self.turns[place] == 0 {
                    self.met[place] = now;
                }
                self.turns[place] = standing.heard[place];
                self.heard[place] = now;
            }
        }
    }

    /// Whether a datagram of the player was heard so far.
    pub fn has_heard(&self, player: Player) -> bool {
        self.turns[player.place()] > 0
    }

    /// Reads the gauge. The next reading counts from here.
    fn read(&mut self, now: Duration, standing: &Standing) -> Reading {
        let mut reading = Reading {
            rollbacks: standing.rollbacks.saturating_sub(self.rollbacks),
            longest: self.longest,
            ..Reading::default()
        };
        for place in 0..MOST_PLAYERS {
            reading.silent[place] = now.saturating_sub(self.heard[place]).as_millis();
            reading.met[place] = self.since_met(now, self.met[place]);
        }
        self.rollbacks = standing.rollbacks;
        self.longest = 0;
        reading
    }

    /// How many milliseconds ago a player was met, if that was late.
    fn since_met(&self, now: Duration, met: Duration) -> Option<u128> {
        if met.saturating_sub(self.start) > Duration::from_secs(EVERY) {
            Some(now.saturating_sub(met).as_millis())
        } else {
            None
        }
    }
}
