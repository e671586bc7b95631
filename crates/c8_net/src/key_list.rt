//! The key sets of standard input.

use c8_game::Keys;
use c8_live::KeySource;

/// The key sets of a text, one a tick. After the last one no key is down.
#[derive(Drop)]
pub(crate) struct KeyList {
    sets: Vec<Keys>,
    /// How many of them the peer has taken.
    taken: usize,
}

impl KeyList {
    /// Begins with the first set.
    pub(crate) fn new(sets: Vec<Keys>) -> KeyList {
        KeyList { sets, taken: 0 }
    }
}

impl KeySource for KeyList {
    fn next_keys(&mut self) -> Option<Keys> {
        Some(self.sets.get(self.taken).copied().unwrap_or_default())
    }

    fn taken(&mut self) {
        self.taken = self.taken.saturating_add(1);
    }
}
