//! The traffic of a wire, for proofs.
ghost use Rattle.std.specs.Prelude.{◌≡◌, ◌≤◌, [], ◌∷◌, ◌++◌, length};

use crate::wire::LONGEST_READ;
use arrayvec::ArrayVec;
use c8_disk::GhostList;
use std::marker::Model;

/// A packet as a wire carries it.
#[derive(Debug, Drop)]
pub struct Carried {
    bytes: ArrayVec<u8, LONGEST_READ>,
}

impl Model for Carried {
    ghost use Rattle.std.specs.Prelude.{List, ℕ};

    ghost Value = { List ℕ };

    ghost view = { λ carried. carried.bytes.items };
}

/// The packets that a wire took to send and those that it gave, oldest first. It has no bytes: a wire that stores no
/// packets holds one, and defines its `sent` and `received` by it.
#[derive(Debug, Drop)]
pub struct Traffic {
    pub sent: GhostList<Carried>,
    pub received: GhostList<Carried>,
}

impl Default for Traffic {
    fn default() -> Traffic {
        Traffic::new()
    }
}

impl Traffic {
    /// No traffic yet.
    pub fn new() -> Traffic
        ensures sent { result.sent.items ≡ [] }
        ensures received { result.received.items ≡ [] }
    {
        Traffic {
            sent: GhostList::new(),
            received: GhostList::new(),
        }
    }

    /// Notes a packet that the wire took to send.
    pub fn took(&mut self, packet: &[u8])
        requires { length packet.now ≤ LONGEST_READ }
        ensures sent { self.new.sent.items ≡ self.old.sent.items ++ packet.now ∷ [] }
        ensures received { self.new.received.items ≡ self.old.received.items }
    {
        if let Ok(bytes) = ArrayVec::try_from(packet) {
            let packet = Carried { bytes };
            self.sent = self.sent.and(&packet);
        }
    }

    /// Notes a packet that the wire gave.
    pub fn gave(&mut self, packet: &[u8])
        requires { length packet.now ≤ LONGEST_READ }
        ensures sent { self.new.sent.items ≡ self.old.sent.items }
        ensures received { self.new.received.items ≡ self.old.received.items ++ packet.now ∷ [] }
    {
        if let Ok(bytes) = ArrayVec::try_from(packet) {
            let packet = Carried { bytes };
            self.received = self.received.and(&packet);
        }
    }
}
