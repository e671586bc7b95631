//! A third socket that floods a player with datagrams: none of them is given.
use crate::udp::sockets::any;
use c8_transport::{LONGEST_PACKET, Wire};
use c8_udp::{Addresses, Remote, Udp};
use std::net::{SocketAddr, UdpSocket};
use std::test::Fail;

/// How many packets come from elsewhere before each of the match; the system keeps twice as many for a socket.
const MANY: u64 = 60;

/// A wire of player 1 at an address, to player 2, and to a watcher in seat 5.
fn wire_at(
    rt: &HostRuntime,
    local: SocketAddr,
    two: SocketAddr,
    five: SocketAddr,
) -> Result<Udp, Fail> {
    let addresses = Addresses {
        local,
        others: [None, Some(Remote::At(two)), None, None],
        watchers: [Some(Remote::At(five)), None],
    };
    Ok(Udp::open(rt, &addresses)?)
}

/// The length of the next packet; 0 if none has come.
fn next(wire: &mut Udp) -> usize {
    let mut packet = [0; LONGEST_PACKET];
    match wire.receive(&mut packet) {
        Ok(size) => size.unwrap_or(0),
        Err(_) => 0,
    }
}

/// Sends a packet of one byte many times.
fn flood(from: &UdpSocket, to: SocketAddr) -> Result<(), Fail> {
    for _ in 0..MANY {
        from.send_to(b"x", to)?;
    }
    Ok(())
}

/// A free port on this machine.
fn free(rt: &HostRuntime) -> Result<SocketAddr, Fail> {
    Ok(UdpSocket::bind(rt, any())?.local_addr()?)
}

/// The packets of player 2 and of the watcher come, in their order, as if there were no others, and the others are
/// counted.
#[test]
fn packets_from_elsewhere_are_turned_away(rt: HostRuntime) -> Result<(), Fail> {
    let (two, five) = (UdpSocket::bind(&rt, any())?, UdpSocket::bind(&rt, any())?);
    let third = UdpSocket::bind(&rt, any())?;
    let local = free(&rt)?;
    let mut wire = wire_at(&rt, local, two.local_addr()?, five.local_addr()?)?;
    flood(&third, local)?;
    two.send_to(b"two", local)?;
    flood(&third, local)?;
    five.send_to(b"watch", local)?;
    assert!(rt; next(&mut wire) == 3 && wire.losses().foreign == MANY);
    assert!(rt; next(&mut wire) == 5 && wire.losses().foreign == 2 * MANY);
    assert!(rt; next(&mut wire) == 0 && wire.losses().lost == 0);
    Ok(())
}
