//! Errors of the network, by a socket whose first call fails.
ghost use Rattle.std.specs.Prelude.{◌≡◌};

use crate::udp::notes::Notes;
use c8_game::Player;
use c8_transport::{LONGEST_PACKET, Losses, Wire, WireFailed};
use c8_udp::{Addresses, Remote, Socket, Udp};
use c8_wire::Seat;
use std::io;
use std::net::{Ipv4Addr, SocketAddr};

const TWO: Player = Player { number: 2 };

/// A socket at which a packet of one byte has come from an address that is IPv4 mapped into IPv6.
#[derive(Drop)]
struct Mapped {
    from: SocketAddr,
    notes: Notes,
}

impl Socket for Mapped {
    ghost took = { λ it. it.notes.took.items };

    ghost gave = { λ it. it.notes.gave.items };

    fn send_to(&mut self, datagram: &[u8], to: SocketAddr) -> io::Result<usize> {
        self.notes.take(to, datagram);
        Ok(datagram.len())
    }

    fn recv_from(&mut self, packet: &mut [u8]) -> io::Result<(usize, SocketAddr)> {
        Ok((self.notes.give_seven(self.from, packet), self.from))
    }
}

/// Whether player 1, who knows player 2 by an IPv4 address, hears a packet from an address.
fn hears(from: SocketAddr) -> bool {
    let mut wire = Udp::over(
        Mapped {
            from,
            notes: Notes::new(),
        },
        &addresses(),
    );
    let mut packet = [0; LONGEST_PACKET];
    wire.receive(&mut packet) == Ok(Some(1))
}

/// The host and the port count, and nothing else.
#[test]
fn a_mapped_address_counts_as_ipv4(rt: HostRuntime) {
    let mapped = Ipv4Addr::LOCALHOST.to_ipv6_mapped();
    assert!(rt; hears(SocketAddr::from((mapped, 4002))));
    assert!(rt; !hears(SocketAddr::from((mapped, 4003))));
    assert!(rt; !hears(SocketAddr::from((Ipv4Addr::new(127, 0, 0, 2), 4002))));
}

/// A socket whose first call fails with an error of the system. Its second call succeeds: a packet of one byte has come
/// from player 2. Later calls would wait.
#[derive(Drop)]
struct Failing {
    number: i32,
    calls: u8,
    notes: Notes,
}

impl Failing {
    fn new(number: i32) -> Failing {
        Failing {
            number,
            calls: 0,
            notes: Notes::new(),
        }
    }

    /// Counts a call, and returns how many came before it.
    fn before(&mut self) -> u8
        ensures { self.new.notes ≡ self.old.notes }
    {
        let before = self.calls;
        self.calls = before.saturating_add(1);
        before
    }
}

fn two() -> SocketAddr {
    SocketAddr::from((Ipv4Addr::LOCALHOST, 4002))
}

impl Socket for Failing {
    ghost took = { λ it. it.notes.took.items };

    ghost gave = { λ it. it.notes.gave.items };

    fn send_to(&mut self, datagram: &[u8], to: SocketAddr) -> io::Result<usize> {
        if self.before() == 0 {
            return Err(io::Error::from_raw_os_error(self.number));
        }
        self.notes.take(to, datagram);
        Ok(datagram.len())
    }

    fn recv_from(&mut self, packet: &mut [u8]) -> io::Result<(usize, SocketAddr)> {
        match self.before() {
            0 => Err(io::Error::from_raw_os_error(self.number)),
            1 => {
                let from = two();
                Ok((self.notes.give_seven(from, packet), from))
            }
            _ => Err(io::Error::from_raw_os_error(libc::EAGAIN)),
        }
    }
}

/// The addresses of player 1, who plays with player 2.
fn addresses() -> Addresses {
    Addresses {
        local: SocketAddr::from((Ipv4Addr::LOCALHOST, 4001)),
        others: [None, Some(Remote::At(two())), None, None],
        watchers: [None, None],
    }
}

fn wire_with(number: i32) -> Udp<Failing> {
    Udp::over(Failing::new(number), &addresses())
}

/// The errors that pass: interrupted, no memory, not permitted, the address gone, network down or unreachable, reset, no
/// buffers, refused, host down or unreachable, and one that nobody knows.
static PASSING: [i32; 13] = [4, 12, 1, 13, 99, 100, 101, 104, 105, 111, 112, 113, 4000];

fn passing() -> &'static [i32] {
    &PASSING
}

/// The errors of a socket that is gone: a bad descriptor, and no socket.
static FATAL: [i32; 2] = [9, 88];

fn fatal() -> &'static [i32] {
    &FATAL
}

const LOST: Losses = Losses {
    lost: 1,
    foreign: 0,
    unsealed: 0,
    repeated: 0,
};

/// Whether the error is a lost datagram when sending, and the next datagram goes.
fn passes_sending(number: i32) -> bool {
    let mut wire = wire_with(number);
    wire.send(Seat::from(TWO), b"datagram").is_ok()
        && wire.losses() == LOST
        && wire.send(Seat::from(TWO), b"datagram").is_ok()
        && wire.losses() == LOST
}

/// Whether the error is a lost datagram when receiving, and the packet behind it comes.
fn passes_receiving(number: i32) -> bool {
    let mut wire = wire_with(number);
    let mut packet = [0; LONGEST_PACKET];
    wire.receive(&mut packet) == Ok(Some(1))
        && packet.starts_with(&[7, 0])
        && wire.losses() == LOST
        && wire.receive(&mut packet) == Ok(None)
        && wire.losses() == LOST
}

/// Whether the error ends sending and receiving.
fn ends(number: i32) -> bool {
    let mut packet = [0; LONGEST_PACKET];
    wire_with(number).send(Seat::from(TWO), b"datagram") == Err(WireFailed::Closed)
        && wire_with(number).receive(&mut packet) == Err(WireFailed::Closed)
}

#[test]
fn errors_of_the_network_pass(rt: HostRuntime) {
    for number in passing() {
        assert!(rt;
            passes_sending(*number) && passes_receiving(*number),
            "error {number}"
        );
    }
}

/// No room to send is a loss too; when receiving it says that nothing has come.
#[test]
fn a_call_that_would_wait_is_no_fault(rt: HostRuntime) {
    let mut packet = [0; LONGEST_PACKET];
    assert!(rt; passes_sending(libc::EAGAIN));
    assert!(rt; wire_with(libc::EAGAIN).receive(&mut packet) == Ok(None));
}

#[test]
fn a_closed_socket_ends_the_wire(rt: HostRuntime) {
    for number in fatal() {
        assert!(rt; ends(*number), "error {number}");
    }
}
