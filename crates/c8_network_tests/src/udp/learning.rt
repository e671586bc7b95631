//! Addresses that are learnt, over a socket that notes where a datagram is sent.
use crate::udp::notes::Notes;
use c8_game::Player;
use c8_transport::{LONGEST_PACKET, Losses, Wire};
use c8_udp::{Addresses, Remote, Socket, Udp};
use c8_wire::{Seat, Watcher};
use std::io;
use std::net::{Ipv4Addr, SocketAddr};

/// A socket to which packets of one byte come from one port of this machine at a time.
#[derive(Drop)]
struct Ports {
    /// From where the next packet comes; 0 for nowhere.
    next: u16,
    /// To which port a datagram was sent last; 0 for none.
    sent: u16,
    notes: Notes,
}

impl Socket for Ports {
    ghost took = { λ it. it.notes.took.items };

    ghost gave = { λ it. it.notes.gave.items };

    fn send_to(&mut self, datagram: &[u8], to: SocketAddr) -> io::Result<usize> {
        self.sent = to.port();
        self.notes.take(to, datagram);
        Ok(datagram.len())
    }

    fn recv_from(&mut self, packet: &mut [u8]) -> io::Result<(usize, SocketAddr)> {
        if self.next == 0 {
            return Err(io::Error::from_raw_os_error(libc::EAGAIN));
        }
        let from = at(self.next);
        self.next = 0;
        Ok((self.notes.give_seven(from, packet), from))
    }
}

fn at(port: u16) -> SocketAddr {
    SocketAddr::from((Ipv4Addr::LOCALHOST, port))
}

const TWO: Player = Player { number: 2 };

const THREE: Player = Player { number: 3 };

const SIX: Watcher = Watcher { number: 6 };

/// A packet, and to which port a datagram for its sender goes after it.
#[derive(Clone, Copy)]
struct Step {
    /// The port from which the packet comes.
    from: u16,
    counter: u64,
    to: u16,
}

/// A player comes from port 5001, moves to 5002 and comes back, each time at once. A copy of an older packet, and one that
/// the network held back, move nobody, wherever they come from.
#[rattlefmt::skip]
static MOVES: [Step; 9] = [
    Step { from: 5001, counter: 0, to: 5001 },
    Step { from: 6000, counter: 0, to: 5001 },
    Step { from: 5001, counter: 7, to: 5001 },
    Step { from: 5002, counter: 8, to: 5002 },
    Step { from: 6000, counter: 7, to: 5002 },
    Step { from: 5001, counter: 6, to: 5002 },
    Step { from: 5001, counter: 4_294_967_296, to: 5001 },
    Step { from: 6000, counter: 4_294_967_296, to: 5001 },
    Step { from: 6000, counter: u64::MAX, to: 6000 },
];

fn moves() -> &'static [Step] {
    &MOVES
}

/// A wire of player 1, whose players 2 and watcher 6 come from addresses that it does not know; player 3 is named.
fn wire() -> Udp<Ports> {
    let addresses = Addresses {
        local: at(4001),
        others: [None, Some(Remote::Learnt), Some(Remote::At(at(4003))), None],
        watchers: [None, Some(Remote::Learnt)],
    };
    let socket = Ports {
        next: 0,
        sent: 0,
        notes: Notes::new(),
    };
    Udp::over(socket, &addresses).hearing_all()
}

/// Whether a packet of a seat from a port is given.
fn hears(wire: &mut Udp<Ports>, seat: Seat, from: u16, counter: u64) -> bool {
    wire.socket().next = from;
    let mut packet = [0; LONGEST_PACKET];
    let is_given = wire.receive(&mut packet) == Ok(Some(1));
    wire.tell_sender(seat, counter);
    is_given
}

/// To which port a datagram for a seat is sent; 0 for none.
fn sent_to(wire: &mut Udp<Ports>, seat: Seat) -> u16 {
    wire.socket().sent = 0;
    let _ = wire.send(seat, b"datagram");
    wire.socket().sent
}

/// Whether a wire takes all steps.
fn takes(steps: &[Step], seat: Seat) -> bool {
    let mut wire = wire();
    if sent_to(&mut wire, seat) != 0 {
        return false;
    }
    for step in steps {
        if !hears(&mut wire, seat, step.from, step.counter) || sent_to(&mut wire, seat) != step.to {
            return false;
        }
    }
    wire.losses() == Losses::default()
}

#[test]
fn the_newest_packet_says_where_a_player_is(rt: HostRuntime) {
    assert!(rt; takes(moves(), Seat::from(TWO)));
    assert!(rt; takes(moves(), Seat::from(SIX)));
}

/// A named address never moves, and nothing is learnt of another player by it.
#[test]
fn a_named_address_stays(rt: HostRuntime) {
    let mut wire = wire();
    assert!(rt; hears(&mut wire, Seat::from(THREE), 6000, 1));
    assert!(rt; sent_to(&mut wire, Seat::from(THREE)) == 4003);
    assert!(rt; sent_to(&mut wire, Seat::from(TWO)) == 0);
}
