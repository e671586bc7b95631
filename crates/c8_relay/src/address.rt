//! Where packets come from, and who may sit where.
ghost use Rattle.std.specs.Prelude.{◌≡◌};
ghost use Rattle.c8_relay.specs.Networks.{host_of, network_of};

/// Where a packet comes from. IPv4 hosts are mapped into IPv6.
#[derive(Clone, Copy, PartialEq, Eq, Hash)]
pub enum Address {
    /// A UDP port of a host.
    Udp { host: u128, port: u16 },
    /// A connection, with a number that no other connection of this relay ever has.
    Connection { host: u128, number: u64 },
}

/// How many addresses an IPv6 network of 64 bits has.
const NETWORK: u128 = 1 << 64;

/// What stands before an IPv4 address that is mapped into IPv6.
const MAPPED: u128 = 0xffff;

impl Address {
    /// Whose address it is, as far as limits go: the host with IPv4, and the network of 64 bits with IPv6.
    pub fn network(self) -> u128
        ensures { result ≡ network_of (host_of self) }
    {
        let host = match self {
            Address::Udp { host, .. } | Address::Connection { host, .. } => host,
        };
        if host >> 32 == MAPPED {
            return host;
        }
        host - host % NETWORK
    }
}

/// Which secret the packets of a room are sealed with.
#[derive(Clone, Copy, PartialEq, Eq, Hash)]
pub enum Lane {
    Players,
    Watchers,
}

/// An address in one lane: it has at most one seat.
#[derive(Clone, Copy, PartialEq, Eq, Hash)]
pub struct Sender {
    pub address: Address,
    pub lane: Lane,
}

/// A seat of a room.
#[derive(Clone, Copy, PartialEq, Eq, Hash)]
pub struct Place {
    /// The room's name, 16 bytes read as a number.
    pub name: u128,
    pub lane: Lane,
    /// From 1 to 6.
    pub seat: u8,
}
