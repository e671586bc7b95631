//! The way of packets between a relay and all addresses.
ghost use Rattle.std.specs.Prelude.{◌≡◌, ◌≤◌, List, ℕ, length, IfSome};
ghost use Rattle.c8_relay.specs.declared.address.Address.{Address};
ghost use Rattle.c8_relay.specs.Ether.{Gives, MaySend};

use crate::address::Address;
use c8_transport::LONGEST_SEALED;

/// How many bytes of a packet are read: one more than the longest that is carried.
pub const LONGEST_READ: usize = LONGEST_SEALED + 1;

/// Sends and receives packets, and may lose them. No call waits.
pub trait Ether {
    /// The packets that it took to send, oldest first, with their addressees.
    ghost sent: { Self → List (Address × List ℕ) };

    /// The packets that it gave, oldest first, with their senders.
    ghost received: { Self → List (Address × List ℕ) };

    /// Sends a packet, or loses it.
    fn send(&mut self, to: Address, packet: &[u8])
        requires { length packet.now ≤ LONGEST_READ }
        ensures sent { MaySend (sent self.old) to packet.now (sent self.new) }
        ensures received { received self.new ≡ received self.old };

    /// Takes the next packet that has come, and returns its length and its sender.
    fn receive(&mut self, packet: &mut [u8; LONGEST_READ]) -> Option<(usize, Address)>
        ensures within { IfSome result (λ next. next.0 ≤ LONGEST_READ) }
        ensures received { Gives (received self.old) packet.new result (received self.new) }
        ensures sent { sent self.new ≡ sent self.old };
}
