//! The seats that are asked for at a relay, and when.

ghost use Rattle.std.specs.Prelude.{◌≡◌, IfSome};
ghost use Rattle.c8_udp.specs.Members.{IsOwnPlace, IsSameMember};

use c8_relay::{Answer, COOKIE_LENGTH, Join, Place, Status};
use c8_transport::Relaying;
use std::net::SocketAddr;
use std::time::Duration;

/// How often a seat is asked for, in milliseconds. So a relay that restarts, one that has forgotten, and a router that has
/// given the socket another port know the player again within a second.
const EVERY: u64 = 1000;

/// How many answers in a row have to say that a seat is taken. A player who comes back by another port counts as heard at
/// the old one for three seconds.
const MOST_BUSY: u8 = 4;

/// After how many seconds without an answer the relay counts as silent.
const QUIET: u64 = 2;

/// A player or watcher at a relay: the seats that it asks for, and what the relay has answered.
#[derive(Clone, Copy)]
pub struct Membership {
    /// Where the relay is.
    pub(crate) relay: SocketAddr,
    /// The own seat.
    own: Place,
    /// Player 1's seat among the watchers, if the match has watchers.
    second: Option<Place>,
    cookie: [u8; COOKIE_LENGTH],
    /// Whether the last JOIN was for the second seat; true before the first one, which is for the own seat.
    is_second: bool,
    /// When the last JOIN was said that was due.
    said: Option<Duration>,
    /// Whether the last answer asks for the same JOIN with its cookie. Each JOIN that was due is repeated once at most.
    proves: bool,
    may_prove: bool,
    /// When the last answer came, or when the first JOIN was said.
    heard: Option<Duration>,
    /// How many answers for the own seat in a row said that it is taken.
    busy: u8,
    is_full: bool,
}

impl Membership {
    /// Asks a relay for these seats.
    pub fn new(relay: SocketAddr, own: Place, second: Option<Place>) -> Membership
        ensures { (result.relay ≡ relay) × (result.own ≡ own) × (result.second ≡ second) }
    {
        Membership {
            relay,
            own,
            second,
            cookie: [0; COOKIE_LENGTH],
            is_second: true,
            said: None,
            proves: false,
            may_prove: false,
            heard: None,
            busy: 0,
            is_full: false,
        }
    }

    /// Returns the JOIN to say now, if one is due: each second one for each seat, and once more with the cookie of an
    /// answer that asks for it.
    pub(crate) fn due(&mut self, now: Duration) -> Option<Join>
        ensures own { IfSome result (λ join. IsOwnPlace self.old join.place) }
        ensures same { IsSameMember self.old self.new }
    {
        if self.proves {
            self.proves = false;
            return Some(self.join());
        }
        if !self.is_due(now) {
            return None;
        }
        self.said = Some(now);
        self.may_prove = true;
        self.is_second = !self.is_second && self.second.is_some();
        if self.heard.is_none() {
            self.heard = Some(now);
        }
        Some(self.join())
    }

    /// Whether the pause since the last JOIN is over. With two seats each has its second, half a second apart.
    fn is_due(&self, now: Duration) -> bool {
        let pause = if self.second.is_some() {
            EVERY / 2
        } else {
            EVERY
        };
        match self.said {
            Some(said) => now.saturating_sub(said) >= Duration::from_millis(pause),
            None => true,
        }
    }

    /// The JOIN for the seat that is asked for.
    fn join(&self) -> Join
        ensures { IsOwnPlace self.now result.place }
    {
        let place = match self.second {
            Some(place) if self.is_second => place,
            _ => self.own,
        };
        Join {
            place,
            cookie: self.cookie,
        }
    }

    /// Notes an answer of the relay.
    pub(crate) fn hear(&mut self, answer: Answer, now: Duration)
        ensures { IsSameMember self.old self.new }
    {
        self.heard = Some(now);
        if answer.status == Status::Prove {
            self.cookie = answer.cookie;
            self.proves = self.may_prove;
            self.may_prove = false;
        } else if !self.is_second {
            self.note(answer.status);
        }
    }

    /// Notes what the relay says of the own seat.
    fn note(&mut self, status: Status)
        ensures { IsSameMember self.old self.new }
    {
        self.is_full = status == Status::Full;
        self.busy = if status == Status::Busy {
            self.busy.saturating_add(1)
        } else {
            0
        };
    }

    /// What the relay has answered of late.
    pub(crate) fn standing(&self, now: Duration) -> Relaying {
        let Some(heard) = self.heard else {
            return Relaying::Joined;
        };
        let silent = now.saturating_sub(heard).as_secs();
        if silent >= QUIET {
            Relaying::Silent(silent)
        } else if self.busy >= MOST_BUSY {
            Relaying::Taken
        } else if self.is_full {
            Relaying::Full
        } else {
            Relaying::Joined
        }
    }
}
