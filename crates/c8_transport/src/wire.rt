//! The transport of datagrams between peers.

ghost use Rattle.std.specs.Prelude.{◌≡◌, ◌≤◌, ℕ, List, length, IfOk, IfSome};
ghost use Rattle.c8_transport.specs.Wire.{MayTake, Gives};

use crate::error::WireFailed;
use c8_wire::{LONGEST_DATAGRAM, Seat};
use std::time::Duration;

/// How many bytes of a packet are read at most: one more than the longest datagram, so that a longer packet is refused.
pub const LONGEST_PACKET: usize = LONGEST_DATAGRAM + 1;

/// How many bytes a wire may add to a datagram that it sends over another wire.
pub const MOST_ADDED: usize = 24;

/// The most bytes that a wire is given to send.
pub const LONGEST_SENT: usize = LONGEST_DATAGRAM + MOST_ADDED;

/// How many bytes of a packet a wire over another wire reads at most: one more than are sent.
pub const LONGEST_READ: usize = LONGEST_SENT + 1;

/// How many packets one turn takes from a wire at most, so that a flood of them cannot stop it.
pub const MOST_PACKETS: u16 = 256;

/// What a wire has lost and turned away so far, as far as it counts.
#[derive(Clone, Copy, Debug, Default, PartialEq, Eq)]
pub struct Losses {
    /// How many datagrams it lost: a queue was full, or the network reported an error that passes.
    pub lost: u64,
    /// How many packets came from elsewhere than a player or watcher of the match.
    pub foreign: u64,
    /// How many packets were not sealed for this player with the key of the match.
    pub unsealed: u64,
    /// How many sealed packets had come before, or were too old to tell.
    pub repeated: u64,
}

/// What a wire hears of the relay that it goes through.
#[derive(Clone, Copy, Debug, PartialEq, Eq)]
pub enum Relaying {
    /// It goes through no relay.
    Direct,
    /// The relay has given the seat, or has had too little time to answer.
    Joined,
    /// The relay has not answered for this many seconds.
    Silent(u64),
    /// Somebody else has the seat.
    Taken,
    /// The relay has no room for another seat.
    Full,
}

/// The way to the other players and to the watchers. It may lose, repeat or delay a datagram. No call but `wait` waits.
pub trait Wire {
    /// The datagrams that it took to send and did not lose at once, oldest first.
    ghost sent: { Self → List (List ℕ) };

    /// The packets that it gave, oldest first.
    ghost received: { Self → List (List ℕ) };

    /// Sends a datagram to a player or a watcher. `Ok` does not mean that it arrives.
    fn send(&mut self, to: Seat, datagram: &[u8]) -> Result<(), WireFailed>
        requires { length datagram.now ≤ LONGEST_SENT }
        ensures sent { MayTake (sent self.old) datagram.now (sent self.new) }
        ensures received { received self.new ≡ received self.old };

    /// Takes the next packet that has come, from whatever sender, and returns its length; of a packet longer than the
    /// buffer it gives the first bytes. `None` if no packet waits.
    fn receive(&mut self, packet: &mut [u8]) -> Result<Option<usize>, WireFailed>
        requires { LONGEST_PACKET ≤ length packet.old }
        ensures within { IfOk result (λ next. IfSome next (λ size. size ≤ length packet.old)) }
        ensures received { Gives (received self.old) packet.new result (received self.new) }
        ensures sent { sent self.new ≡ sent self.old };

    /// Waits until a packet may have come, at most this long. A wire that cannot wait returns at once.
    fn wait(&mut self, _most: Duration)
        ensures received { received self.new ≡ received self.old }
        ensures sent { sent self.new ≡ sent self.old }
    {}

    /// Says who sealed the packet that was given last, and its counter, as a wire above has found. A wire may learn by it
    /// where that sender is: what came with the greatest counter is the newest.
    fn tell_sender(&mut self, _sender: Seat, _counter: u64)
        ensures received { received self.new ≡ received self.old }
        ensures sent { sent self.new ≡ sent self.old }
    {}

    /// What it has lost and turned away so far.
    fn losses(&self) -> Losses {
        Losses::default()
    }

    /// What it hears of the relay that it goes through.
    fn relaying(&self) -> Relaying {
        Relaying::Direct
    }
}
