//! When a row shows the keys.

use std::time::Duration;

/// For how many seconds the keys are shown.
const SHOWN: u64 = 10;

/// Whether a row shows the keys: before the game goes on, for ten seconds from then on, and for ten seconds after the person
/// asks. All times are of one clock.
#[derive(Clone, Copy, Debug, PartialEq, Eq)]
pub struct Reminder {
    now: Duration,
    /// Until when they are shown since the game goes on; `None` before that.
    begun: Option<Duration>,
    /// Until when they are shown because the person asked, and whether the person has asked since the last look.
    asked: Option<Duration>,
    is_due: bool,
}

impl Reminder {
    /// Before the game goes on.
    pub fn new() -> Reminder {
        Reminder {
            now: Duration::from_secs(0),
            begun: None,
            asked: None,
            is_due: false,
        }
    }

    /// The person asks for the keys.
    pub fn ask(&mut self) {
        self.is_due = true;
    }

    /// Notes the time, and whether the game goes on.
    pub fn note(&mut self, now: Duration, goes_on: bool) {
        let until = now.saturating_add(Duration::from_secs(SHOWN));
        self.now = now;
        if goes_on && self.begun.is_none() {
            self.begun = Some(until);
        }
        if self.is_due {
            self.asked = Some(until);
            self.is_due = false;
        }
    }

    /// Whether the keys are shown because the person asked.
    pub fn is_asked(&self) -> bool {
        self.asked.is_some_and(|until| self.now < until)
    }

    /// Whether the keys are shown.
    pub fn is_shown(&self) -> bool {
        self.is_asked() || self.begun.is_none_or(|until| self.now < until)
    }
}
