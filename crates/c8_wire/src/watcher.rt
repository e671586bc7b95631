//! The watchers of a match.
ghost use Rattle.std.specs.Prelude.{◌≡◌, ◌≤◌, ◌<◌, ◌⊎◌, IfSome, IfNone};

use std::fmt;

/// A watcher in seat 5 or 6. A watcher is not a player: nothing that it sends changes the match.
#[derive(Clone, Copy, Debug, PartialEq, Eq, PartialOrd, Ord, Hash)]
pub struct Watcher {
    pub number: u8,
    pub ghost from_five: { 5 ≤ number },
    pub ghost to_six: { number ≤ 6 },
}

impl Watcher {
    /// Returns the watcher in seat 5 or 6; `None` for any other number.
    pub fn new(number: u8) -> Option<Self>
        ensures some { IfSome result (λ watcher. watcher.number ≡ number) }
        ensures none { IfNone result ((number < 5) ⊎ (6 < number)) }
    {
        if number >= 5 && number <= 6 {
            Some(Watcher { number })
        } else {
            None
        }
    }
}

/// Shows the number of the seat.
impl fmt::Display for Watcher {
    fn fmt<W: fmt::Write>(&self, f: &mut fmt::Formatter<W>) -> fmt::Result {
        write!(f, "{}", self.number)
    }
}
