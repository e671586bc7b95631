//! How many seats a room or a host has.
ghost use Rattle.std.specs.Prelude.{◌≡◌, ◌+◌, ◌-◌, nat_eq, unwrap_or, IfOk};
ghost use Rattle.std.specs.HashMap.{get, hash_map_len};

use std::alloc::{AllocError, Global};
use std::collections::HashMap;
use std::hash::RandomState;

/// How often each key was added, and not removed since.
#[derive(Drop)]
pub(crate) struct Tally {
    counts: HashMap<u128, u32, RandomState>,
}

impl Tally {
    /// Takes memory for this many keys.
    pub(crate) fn new(
        alloc: Global,
        keys: usize,
        hashing: RandomState,
    ) -> Result<Tally, AllocError> {
        let counts = HashMap::with_capacity_and_hasher(alloc, keys, hashing)?;
        Ok(Tally { counts })
    }

    /// How often the key was added.
    pub(crate) fn count(&self, key: u128) -> u32
        ensures { result ≡ unwrap_or (get nat_eq self.now.counts key) 0 }
    {
        self.counts.get(&key).copied().unwrap_or(0)
    }

    /// How many keys there are.
    pub(crate) fn len(&self) -> usize
        ensures { result ≡ hash_map_len self.now.counts }
    {
        self.counts.len()
    }

    /// Adds a key. Where memory is refused nothing changes.
    pub(crate) fn add(&mut self, key: u128) {
        let count = self.count(key).saturating_add(1);
        let _added = self.counts.insert(key, count).is_ok();
    }

    /// Removes a key.
    pub(crate) fn remove(&mut self, key: u128) {
        let count = self.count(key);
        if count > 1 {
            let _changed = self.counts.insert(key, count - 1).is_ok();
        } else {
            self.counts.remove(&key);
        }
    }
}
