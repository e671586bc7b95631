//! What a relay did, in numbers.
ghost use Rattle.std.specs.Prelude.{◌≡◌};
ghost use Rattle.c8_udp.specs.Counted.{counted, dropped};

use c8_relay::{Cause, Turned};
use std::fmt;
use std::fmt::Display;

/// How many packets had which fate.
#[derive(Clone, Copy, Debug, Default, PartialEq, Eq)]
pub struct Counts {
    pub carried: u64,
    pub answered: u64,
    pub unknown: u64,
    pub stranger: u64,
    pub nobody: u64,
    pub fast: u64,
    pub crowd: u64,
}

impl Counts {
    /// Counts what came of one turn.
    pub fn add(&mut self, turned: Turned)
        ensures { self.new ≡ counted self.old turned }
    {
        match turned {
            Turned::Idle => {}
            Turned::Carried => self.carried = self.carried.saturating_add(1),
            Turned::Answered => self.answered = self.answered.saturating_add(1),
            Turned::Dropped(cause) => self.drop_one(cause),
        }
    }

    fn drop_one(&mut self, cause: Cause)
        ensures { self.new ≡ dropped self.old cause }
    {
        match cause {
            Cause::Unknown => self.unknown = self.unknown.saturating_add(1),
            Cause::Stranger => self.stranger = self.stranger.saturating_add(1),
            Cause::Nobody => self.nobody = self.nobody.saturating_add(1),
            Cause::TooFast => self.fast = self.fast.saturating_add(1),
            Cause::Crowd => self.crowd = self.crowd.saturating_add(1),
        }
    }
}

/// Prints them in one line, without its end.
impl Display for Counts {
    fn fmt<W: fmt::Write>(&self, f: &mut fmt::Formatter<W>) -> fmt::Result {
        let (carried, answered) = (self.carried, self.answered);
        write!(f, "datagrams {carried} joins {answered} dropped")?;
        let (unknown, stranger, nobody) = (self.unknown, self.stranger, self.nobody);
        write!(f, " unknown {unknown} stranger {stranger} nobody {nobody}")?;
        let (fast, crowd) = (self.fast, self.crowd);
        write!(f, " fast {fast} crowd {crowd}")
    }
}
