//! Which counters of a sender were taken.
ghost use Rattle.std.specs.Prelude.{◌≡◌, ◌≢◌, ◌↔◌, ◌+◌, ◌<◌, ◌≤◌, ◌^◌, ◌%◌, ℕ, true, false, List, [], ◌∷◌, ◌++◌, slice_set, replicate, IsTrue, MatchBool, MatchOption, IfNone};
ghost use Rattle.c8_transport.specs.Counters.{IsNew, IsNewest};
ghost use Rattle.c8_transport.specs.SeenBits.{mark_of, AreMarked, HasSeen};

use c8_disk::GhostList;
use std::marker::Model;

/// How many counters up to the greatest are remembered. A network that overtakes more packets than these loses some.
const WINDOW: u64 = 1024;

/// How many marks there are, one for each remembered counter.
const MARKS: usize = WINDOW as usize;

/// The counters of a sender that were taken: the greatest, and a mark for each of the window up to it. Each counter is
/// taken at most once. It has a fixed size and takes no memory. Clauses see the list of all counters that were taken,
/// oldest first.
#[derive(Drop)]
pub struct Seen {
    greatest: Option<u64>,
    /// Whether a counter of the window was taken, at the place of its last ten bits.
    marks: [bool; MARKS],
    taken: GhostList<u64>,
}

impl Model for Seen {
    ghost use Rattle.std.specs.Prelude.{List, ℕ};
    ghost use Rattle.c8_transport.specs.SeenBits.{HasSeen};

    ghost Value = { List ℕ };

    ghost view = { λ seen. seen.taken.items };

    ghost invariant = { λ seen. HasSeen seen.greatest seen.marks seen.taken.items };
}

impl Seen {
    /// No counter was taken yet.
    pub fn new() -> Seen
        ensures { result ≡ [] }
    {
        Seen {
            greatest: None,
            marks: no_marks(),
            taken: GhostList::new(),
        }
    }

    /// Returns whether a counter is above all that were taken.
    pub fn is_newest(&self, counter: u64) -> bool
        ensures { IsTrue result ↔ IsNewest self.now counter }
    {
        match self.greatest {
            Some(greatest) => greatest < counter,
            None => true,
        }
    }

    /// Takes a counter, if it is new: it was not taken before, and none was that is 1,024 or more above it. Returns
    /// whether it was taken. Otherwise nothing changes.
    pub fn take(&mut self, counter: u64) -> bool
        ensures { MatchBool result
            (IsNew self.old counter × (self.new ≡ self.old ++ counter ∷ []))
            ((IsNew self.old counter → ⊥) × (self.new ≡ self.old)) }
    {
        let Some(greatest) = room_for(counter, self.greatest, &mut self.marks) else {
            return false;
        };
        self.greatest = Some(greatest);
        self.marks[place_of(counter)] = true;
        self.taken = self.taken.and(&counter);
        true
    }
}

/// Makes room for the mark of a counter, and returns what the greatest is with it. `None` if the counter is not new.
fn room_for(counter: u64, greatest: Option<u64>, marks: &mut [bool; MARKS]) -> Option<u64>
    ensures room { (taken : List ℕ) → HasSeen greatest marks.old taken → MatchOption result
        (IsNew taken counter → ⊥)
        (λ g. IsNew taken counter
        × AreMarked g (slice_set marks.new (counter % 1024) true) (taken ++ counter ∷ [])) }
    ensures kept { IfNone result (marks.new ≡ marks.old) }
{
    let Some(greatest) = greatest else {
        return Some(counter);
    };
    if counter > greatest {
        clear(marks, greatest, counter - greatest);
        return Some(counter);
    }
    if greatest - counter >= WINDOW || marks[place_of(counter)] {
        return None;
    }
    Some(greatest)
}

/// The marks before any counter was taken.
fn no_marks() -> [bool; MARKS]
    ensures { result ≡ replicate 1024 false }
{
    [false; MARKS]
}

/// The place of a counter's mark.
fn place_of(counter: u64) -> usize
    ensures is { result ≡ counter % 1024 }
    ensures within { result < 1024 }
{
    (counter % WINDOW) as usize
}

/// Clears the marks of the `count` counters after `greatest`, so that they can stand for these.
fn clear(marks: &mut [bool; MARKS], greatest: u64, count: u64)
    requires { greatest + count < 2 ^ 64 }
    ensures cleared { (c : ℕ) → greatest < c → c ≤ greatest + count → greatest + count < c + 1024
        → mark_of marks.new c ≡ false }
    ensures kept { (c : ℕ) → c ≤ greatest → greatest + count < c + 1024
        → mark_of marks.new c ≡ mark_of marks.old c }
{
    for step in 0..count.min(WINDOW) {
        clear_one(marks, greatest + count - step);
    }
}

/// Clears the mark of a counter.
fn clear_one(marks: &mut [bool; MARKS], counter: u64)
    ensures cleared { mark_of marks.new counter ≡ false }
    ensures kept { (c : ℕ) → c % 1024 ≢ counter % 1024 → mark_of marks.new c ≡ mark_of marks.old c }
{
    marks[place_of(counter)] = false;
}
