//! How many rows each watcher has acknowledged.
ghost use Rattle.std.specs.Prelude.{◌≡◌};
ghost use Rattle.c8_peer.specs.State.{none_seen, seen_by, with_seen};

use c8_wire::Watcher;
use std::marker::Model;

/// How many rows the watchers in seats 5 and 6 have acknowledged since the last opening.
#[derive(Debug, Drop)]
pub(crate) struct Watchers {
    five: u32,
    six: u32,
}

impl Model for Watchers {
    ghost use Rattle.c8_peer.specs.State.{SeenValue};

    ghost Value = { SeenValue };

    ghost view = { λ w. record { five = w.five; six = w.six } };
}

impl Watchers {
    pub(crate) fn new() -> Watchers
        ensures { result ≡ none_seen }
    {
        Watchers { five: 0, six: 0 }
    }

    /// Returns how many rows a watcher has acknowledged; at first 0.
    pub(crate) fn rows(&self, watcher: Watcher) -> u32
        ensures { result ≡ seen_by self.now watcher.number }
    {
        if watcher.number == 5 {
            self.five
        } else {
            self.six
        }
    }

    /// Notes that a watcher has acknowledged this number of rows. The last number counts, even if it is lower.
    pub(crate) fn tell(&mut self, watcher: Watcher, rows: u32)
        ensures { self.new ≡ with_seen self.old watcher.number rows }
    {
        if watcher.number == 5 {
            self.five = rows;
        } else {
            self.six = rows;
        }
    }
}
