//! How many datagrams a seat may send.
ghost use Rattle.std.specs.Prelude.{◌≡◌, ◌+◌, ◌-◌, ◌*◌, ◌<◌, ◌≤◌, ◌^◌, ◌∷◌, [], ℕ, List, length, max, MatchBool};
ghost use Rattle.c8_relay.specs.Budget.{Between, Pass};

/// How many microseconds one datagram costs: 1,000 a second.
pub const COST: u64 = 1_000;

/// How many microseconds may be spent ahead: 128 datagrams at once.
pub const BURST: u64 = 128_000;

/// A budget that fills by itself (the generic cell rate algorithm).
#[derive(Clone, Copy)]
pub struct Bucket {
    /// When it will be full again, in microseconds.
    pub full_at: u64,
}

impl Bucket {
    /// A full budget.
    pub const FULL: Bucket = Bucket { full_at: 0 };

    /// Takes one datagram's cost, if that much is left.
    pub fn spend(&mut self, now: u64) -> bool
        requires { now < 2 ^ 62 }
        ensures { MatchBool result
            ((self.new.full_at ≡ max self.old.full_at now + COST) × Pass self.old.full_at (now ∷ []))
            ((self.new ≡ self.old) × (now + BURST < self.old.full_at + COST)) }
    {
        let from = self.full_at.max(now);
        if from > now + (BURST - COST) {
            return false;
        }
        self.full_at = from + COST;
        true
    }
}

/// Of the datagrams of one seat that pass within a time there are at most 128, and one more for each 1,000 microseconds
/// of it.
pub fn passes_no_more()
    ensures { (start end full : ℕ) (times : List ℕ) → Pass full times → Between start end times
        → 1_000 * length times ≤ (end - start) + 128_000 }
{}
