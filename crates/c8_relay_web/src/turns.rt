//! Which connection is asked next.
ghost use Rattle.std.specs.Prelude.{◌≡◌, ◌⊎◌, ◌++◌, ◌∷◌, ◌≤◌, [], IfOk, IfSome, cond, option_to_list, slice_get};
ghost use Rattle.std.specs.VecDeque.{deque_capacity, deque_len};

use crate::numbers::MOST_CONNECTIONS;
use std::alloc::{AllocError, Global};
use std::collections::VecDeque;

/// The places of connections that may have something to do, in the order in which they came to it, each once.
#[derive(Drop)]
pub(crate) struct Turns {
    pub(crate) queue: VecDeque<usize>,
    /// Whether a place stands in the queue.
    stands: Vec<bool>,
}

impl Turns {
    /// Takes memory for all places.
    pub(crate) fn new(alloc: Global) -> Result<Turns, AllocError>
        ensures { IfOk result (λ turns. turns.queue.items ≡ []) }
    {
        let mut stands = Vec::with_capacity(alloc, MOST_CONNECTIONS)?;
        for _ in 0..MOST_CONNECTIONS {
            stands.push(false)?;
        }
        Ok(Turns {
            queue: VecDeque::with_capacity(alloc, MOST_CONNECTIONS)?,
            stands,
        })
    }

    pub(crate) fn is_empty(&self) -> bool {
        self.queue.is_empty()
    }

    /// Adds a place behind the others, unless it stands there.
    pub(crate) fn add(&mut self, place: usize)
        ensures stands { IfSome (slice_get self.old.stands.items place) (λ stood. (self.new.queue.items ≡ cond stood self.old.queue.items (self.old.queue.items ++ place ∷ []))
            ⊎ (deque_capacity self.old.queue ≤ deque_len self.old.queue)) }
        ensures behind { (self.new.queue.items ≡ self.old.queue.items) ⊎ (self.new.queue.items ≡ self.old.queue.items ++ place ∷ []) }
    {
        if place < self.stands.len() && !self.stands[place] {
            self.stands[place] = self.queue.push_back(place).is_ok();
        }
    }

    /// Takes the first place.
    pub(crate) fn next(&mut self) -> Option<usize>
        ensures { self.old.queue.items ≡ option_to_list result ++ self.new.queue.items }
    {
        let place = self.queue.pop_front()?;
        if place < self.stands.len() {
            self.stands[place] = false;
        }
        Some(place)
    }
}
