//! What a socket of a test has taken and given.
ghost use Rattle.std.specs.Prelude.{◌≡◌, ◌≤◌, ◌++◌, ◌∷◌, [], length, take};
ghost use Rattle.std.specs.Counts.{IsPrefixLen};
ghost use Rattle.c8_udp.specs.Letters.{letter};

use c8_disk::GhostList;
use c8_transport::LONGEST_READ;
use c8_udp::Letter;
use std::net::SocketAddr;

/// The datagrams that a socket took, and the packets that it gave.
#[derive(Drop)]
pub(crate) struct Notes {
    pub(crate) took: GhostList<Letter>,
    pub(crate) gave: GhostList<Letter>,
}

impl Notes {
    pub(crate) fn new() -> Notes {
        Notes {
            took: GhostList::new(),
            gave: GhostList::new(),
        }
    }

    /// Notes a datagram that was taken.
    pub(crate) fn take(&mut self, to: SocketAddr, datagram: &[u8])
        requires { length datagram.now ≤ LONGEST_READ }
        ensures took { self.new.took.items ≡ self.old.took.items ++ letter to datagram.now ∷ [] }
        ensures gave { self.new.gave.items ≡ self.old.gave.items }
    {
        self.took = self.took.and(&Letter::of(to, datagram));
    }

    /// Gives a packet of these bytes, as many as have a place, and returns its length.
    pub(crate) fn give(&mut self, from: SocketAddr, bytes: &[u8], packet: &mut [u8]) -> usize
        requires { length packet.old ≤ LONGEST_READ }
        ensures within { IsPrefixLen result packet.new }
        ensures gave { self.new.gave.items ≡ self.old.gave.items ++ letter from (take result packet.new) ∷ [] }
        ensures took { self.new.took.items ≡ self.old.took.items }
    {
        let size = packet.len().min(bytes.len());
        packet[..size].copy_from_slice(&bytes[..size]);
        self.gave = self.gave.and(&Letter::of(from, &packet[..size]));
        size
    }

    /// Gives a packet of one byte, 7, or of none if there is no place, and returns its length.
    pub(crate) fn give_seven(&mut self, from: SocketAddr, packet: &mut [u8]) -> usize
        requires { length packet.old ≤ LONGEST_READ }
        ensures within { IsPrefixLen result packet.new }
        ensures gave { self.new.gave.items ≡ self.old.gave.items ++ letter from (take result packet.new) ∷ [] }
        ensures took { self.new.took.items ≡ self.old.took.items }
    {
        let size = packet.len().min(1);
        packet[..size].fill(7);
        self.gave = self.gave.and(&Letter::of(from, &packet[..size]));
        size
    }
}
