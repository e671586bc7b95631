//! The way to the other players, over the loopback, with sockets of the system.
use c8_game::Player;
use c8_transport::{LONGEST_PACKET, Wire};
use c8_udp::{Addresses, PolledUdp, Remote, Route, SocketFault, SystemSocket, Udp};
use c8_wire::Seat;
use std::net::{Ipv4Addr, SocketAddr, UdpSocket};
use std::test::Fail;
use std::time::{Duration, Instant};
use std::{io, thread};

pub(crate) const TWO: Player = Player { number: 2 };

const THREE: Player = Player { number: 3 };

/// Any free port.
pub(crate) fn any() -> SocketAddr {
    SocketAddr::from((Ipv4Addr::LOCALHOST, 0))
}

/// The addresses of player 1 at any free port, and of player 2.
fn addresses_to(other: SocketAddr) -> Addresses {
    Addresses {
        local: any(),
        others: [None, Some(Remote::At(other)), None, None],
        watchers: [None, None],
    }
}

/// A wire of player 1 to the address of player 2.
fn wire_to(rt: &HostRuntime, other: SocketAddr) -> Result<Udp, SocketFault> {
    Udp::open(rt, &addresses_to(other))
}

/// The same wire over a route without a relay.
fn route_to(
    rt: &HostRuntime,
    other: SocketAddr,
) -> Result<Udp<Route<'_, HostRuntime>>, SocketFault> {
    let socket = SystemSocket::bind(rt, any())?;
    Ok(Udp::over(Route::new(rt, socket, None), &addresses_to(other)))
}

/// A socket of another player.
fn other_socket(rt: &HostRuntime) -> Result<UdpSocket, Fail> {
    Ok(UdpSocket::bind(rt, any())?)
}

/// The length of the next packet, if one has come; 0 after an error.
fn received(wire: &mut Udp, packet: &mut [u8; LONGEST_PACKET]) -> Option<usize> {
    match wire.receive(packet) {
        Ok(size) => size,
        Err(_) => Some(0),
    }
}

/// Player 2 answers what it hears with a packet that is longer than any datagram, and a short one.
fn answer_twice(other: &UdpSocket) -> Result<bool, Fail> {
    let mut heard = [0; 300];
    let (size, from) = other.recv_from(&mut heard)?;
    other.send_to(&[7; 300], from)?;
    other.send_to(b"short", from)?;
    Ok(size == 8 && heard.starts_with(b"datagram"))
}

/// Sends player 2 a datagram, and returns whether that succeeded.
fn sends(wire: &mut Udp) -> bool {
    wire.send(Seat::from(TWO), b"datagram").is_ok()
}

/// Whether no packet has come.
fn is_quiet(wire: &mut Udp) -> bool {
    let mut packet = [0; LONGEST_PACKET];
    received(wire, &mut packet).is_none()
}

/// Whether both answers come, the long one cut to its first bytes, and nothing more.
fn hears_twice(wire: &mut Udp) -> bool {
    let mut packet = [0; LONGEST_PACKET];
    received(wire, &mut packet) == Some(LONGEST_PACKET)
        && packet == [7; LONGEST_PACKET]
        && received(wire, &mut packet) == Some(5)
        && packet.starts_with(b"short")
        && is_quiet(wire)
}

#[test]
fn carries_packets_and_never_waits(rt: HostRuntime) -> Result<(), Fail> {
    let other = other_socket(&rt)?;
    let mut wire = wire_to(&rt, other.local_addr()?)?;
    assert!(rt; is_quiet(&mut wire) && sends(&mut wire));
    assert!(rt; answer_twice(&other)?);
    assert!(rt; hears_twice(&mut wire));
    Ok(())
}

/// A wait that lasts this long was ended by nothing.
fn long() -> Duration {
    Duration::from_secs(20)
}

/// How long a wire waits.
fn waited(
    rt: &HostRuntime,
    wire: &mut PolledUdp<'_, HostRuntime>,
    most: Duration,
) -> io::Result<Duration> {
    let begun = Instant::now(rt)?;
    wire.wait(most);
    begun.elapsed(rt)
}

/// A packet ends a wait, and so does the bell, before the wait or in it. Otherwise it lasts as long as it may.
#[test]
fn a_packet_or_the_bell_ends_a_wait(rt: HostRuntime) -> Result<(), Fail> {
    let other = other_socket(&rt)?;
    let (mut wire, bell) = PolledUdp::over(&rt, route_to(&rt, other.local_addr()?)?)?;
    let short = Duration::from_millis(30);
    assert!(rt; waited(&rt, &mut wire, short)? >= short);
    assert!(rt; wire.send(Seat::from(TWO), b"datagram").is_ok() && answer_twice(&other)?);
    assert!(rt; waited(&rt, &mut wire, long())? < long());
    bell.ring();
    assert!(rt; waited(&rt, &mut wire, long())? < long());
    let ringing = thread::spawn(&rt, move || {
        thread::sleep(&rt, short);
        bell.ring();
        // a bell that is gone before the wait ends has not rung
        bell
    })?;
    assert!(rt; waited(&rt, &mut wire, long())? < long());
    drop(ringing.join(&rt));
    Ok(())
}

/// An address at which nobody listens any more.
fn gone(rt: &HostRuntime) -> Result<SocketAddr, Fail> {
    Ok(other_socket(rt)?.local_addr()?)
}

/// Whether a datagram is sent, and nothing comes.
fn loses(wire: &mut Udp) -> bool {
    sends(wire) && is_quiet(wire)
}

/// Datagrams to an address at which nobody listens, and to a player without an address, are lost.
#[test]
fn a_player_who_is_not_there_is_a_loss(rt: HostRuntime) -> Result<(), Fail> {
    let mut wire = wire_to(&rt, gone(&rt)?)?;
    assert!(rt; loses(&mut wire) && loses(&mut wire) && loses(&mut wire));
    assert!(rt; wire.send(Seat::from(THREE), b"datagram").is_ok());
    Ok(())
}

/// Why a wire does not open at an address, if it does not.
fn fault_at(rt: &HostRuntime, local: SocketAddr) -> Option<SocketFault> {
    let others = [None; 4];
    let watchers = [None; 2];
    let addresses = Addresses {
        local,
        others,
        watchers,
    };
    Udp::open(rt, &addresses).err()
}

/// An address that is taken, and one that no interface has, are faults with a cause of their own.
#[test]
fn an_address_of_no_use_is_a_fault(rt: HostRuntime) -> Result<(), Fail> {
    let other = other_socket(&rt)?;
    let nowhere = SocketAddr::from((Ipv4Addr::new(192, 0, 2, 7), 0));
    assert!(rt; fault_at(&rt, any()).is_none());
    assert!(rt; fault_at(&rt, other.local_addr()?) == Some(SocketFault::InUse));
    assert!(rt; fault_at(&rt, nowhere) == Some(SocketFault::NotHere));
    Ok(())
}
