//! The packets that passed a socket, for proofs.
ghost use Rattle.std.specs.Prelude.{◌≡◌, ◌≤◌, [], ◌∷◌, ◌++◌, length};

use arrayvec::ArrayVec;
use c8_disk::GhostList;
use c8_relay::{Address, LONGEST_READ};
use std::marker::Model;

/// A packet with its other end.
#[derive(Drop)]
pub struct Carried {
    address: Address,
    bytes: ArrayVec<u8, LONGEST_READ>,
}

impl Model for Carried {
    ghost use Rattle.std.specs.Prelude.{List, ℕ};
    ghost use Rattle.c8_relay.specs.declared.address.Address.{Address};

    ghost Value = { Address × List ℕ };

    ghost view = { λ carried. (carried.address, carried.bytes.items) };
}

/// The packets that a socket took to send and those that it gave, oldest first. It has no bytes.
#[derive(Drop)]
pub struct Passed {
    pub sent: GhostList<Carried>,
    pub received: GhostList<Carried>,
}

impl Passed {
    /// None yet.
    pub fn new() -> Passed
        ensures sent { result.sent.items ≡ [] }
        ensures received { result.received.items ≡ [] }
    {
        Passed {
            sent: GhostList::new(),
            received: GhostList::new(),
        }
    }

    /// Notes a packet that the socket took to send.
    pub fn took(&mut self, address: Address, packet: &[u8])
        requires { length packet.now ≤ LONGEST_READ }
        ensures sent { self.new.sent.items ≡ self.old.sent.items ++ (address, packet.now) ∷ [] }
        ensures received { self.new.received.items ≡ self.old.received.items }
    {
        if let Ok(bytes) = ArrayVec::try_from(packet) {
            let packet = Carried { address, bytes };
            self.sent = self.sent.and(&packet);
        }
    }

    /// Notes a packet that the socket gave.
    pub fn gave(&mut self, address: Address, packet: &[u8])
        requires { length packet.now ≤ LONGEST_READ }
        ensures sent { self.new.sent.items ≡ self.old.sent.items }
        ensures received { self.new.received.items ≡ self.old.received.items ++ (address, packet.now) ∷ [] }
    {
        if let Ok(bytes) = ArrayVec::try_from(packet) {
            let packet = Carried { address, bytes };
            self.received = self.received.and(&packet);
        }
    }
}
