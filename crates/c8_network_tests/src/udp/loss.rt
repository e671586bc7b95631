//! A lost datagram that the system reports.
use crate::udp::sockets::{TWO, any};
use c8_transport::{LONGEST_PACKET, Wire};
use c8_udp::{Addresses, Remote, SystemSocket, Udp};
use c8_wire::Seat;
use mio::net::UdpSocket as OwnSocket;
use std::net::UdpSocket;
use std::test::Fail;

/// A wire whose socket is connected to player 2, who has sent it a packet and is gone.
fn connected(rt: &HostRuntime) -> Result<Udp, Fail> {
    let gone = UdpSocket::bind(rt, any())?;
    let address = gone.local_addr()?;
    let socket = OwnSocket::bind(rt, any())?;
    socket.connect(address)?;
    gone.send_to(b"packet", socket.local_addr()?)?;
    drop(gone);
    let addresses = Addresses {
        local: any(),
        others: [None, Some(Remote::At(address)), None, None],
        watchers: [None, None],
    };
    Ok(Udp::over(SystemSocket::over(socket), &addresses))
}

/// Whether the packet that waits comes after the report of a loss, and datagrams can be sent before and after it.
fn goes_on(wire: &mut Udp) -> bool {
    let mut packet = [0; LONGEST_PACKET];
    wire.send(Seat::from(TWO), b"datagram").is_ok()
        && wire.receive(&mut packet) == Ok(Some(6))
        && wire.send(Seat::from(TWO), b"datagram").is_ok()
        && wire.send(Seat::from(TWO), b"datagram").is_ok()
        && wire.receive(&mut packet) == Ok(None)
}

/// The next call of a connected socket reports that nobody received a datagram.
#[test]
fn a_packet_comes_behind_a_loss(rt: HostRuntime) -> Result<(), Fail> {
    let mut wire = connected(&rt)?;
    assert!(rt; goes_on(&mut wire));
    Ok(())
}
