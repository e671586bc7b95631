//! A UDP socket as an ether.
ghost use Rattle.std.specs.Prelude.{◌≡◌, ◌<◌, ◌≤◌, [], IfOk, IfSome};
ghost use Rattle.c8_relay.specs.Ether.{Gives};
ghost use Rattle.c8_udp.specs.Ports.{AreBits, IsAddressOf, IsPort, IsTarget};

use crate::passed::Passed;
use c8_relay::{Address, Ether, LONGEST_READ};
use mio::event::Source;
use mio::net::UdpSocket;
use mio::{Interest, Registry, Token};
use std::io;
use std::io::ErrorKind;
use std::net::{IpAddr, Ipv6Addr, Net, SocketAddr};

/// The most errors of the network that `receive` skips before it returns `None`.
const MOST_SKIPPED: u16 = 256;

/// The address of a UDP socket, with IPv4 mapped into IPv6.
pub(crate) fn address_of(socket: SocketAddr) -> Address
    ensures { IsAddressOf socket result }
{
    Address::Udp {
        host: bits_of(socket.ip()),
        port: socket.port(),
    }
}

/// The bits of a host, with IPv4 mapped into IPv6.
pub fn bits_of(host: IpAddr) -> u128
    ensures { AreBits host result }
{
    match host {
        IpAddr::V4(ip) => ip.to_ipv6_mapped().to_bits(),
        IpAddr::V6(ip) => ip.to_bits(),
    }
}

/// Where a UDP socket reaches an address, by its own IP version; `None` for a connection. A socket of IPv6 reaches an IPv4
/// address where it is mapped into IPv6.
pub(crate) fn target_of(address: Address, is_ipv6: bool) -> Option<SocketAddr>
    ensures { IsTarget address is_ipv6 result }
{
    match address {
        Address::Udp { host, port } => {
            let ip = Ipv6Addr::from_bits(host);
            let ip = if is_ipv6 {
                IpAddr::V6(ip)
            } else {
                ip.to_canonical()
            };
            Some(SocketAddr::new(ip, port))
        }
        Address::Connection { .. } => None,
    }
}

/// A UDP socket that sends to all and hears all. An error of the network is a lost packet. What `passed` notes of the
/// system is trusted.
#[derive(Drop)]
pub struct RelaySocket {
    udp: UdpSocket,
    is_ipv6: bool,
    pub passed: Passed,
}

impl RelaySocket {
    /// Opens a socket.
    pub fn open<R: Net>(rt: &R, local: SocketAddr) -> io::Result<RelaySocket>
        ensures sent { IfOk result (λ socket. socket.passed.sent.items ≡ []) }
        ensures received { IfOk result (λ socket. socket.passed.received.items ≡ []) }
    {
        let udp = UdpSocket::bind(rt, local)?;
        Ok(RelaySocket {
            udp,
            is_ipv6: local.is_ipv6(),
            passed: Passed::new(),
        })
    }

    /// Its own address.
    pub fn local(&self) -> io::Result<SocketAddr> {
        self.udp.local_addr()
    }

    /// Lets a poll wait for packets.
    pub fn register(&mut self, registry: &Registry, token: Token) -> io::Result<()>
        ensures { self.new.passed ≡ self.old.passed }
    {
        self.udp.register(registry, token, Interest::READABLE)
    }
}

impl Ether for RelaySocket {
    ghost sent = { λ socket. socket.passed.sent.items };

    ghost received = { λ socket. socket.passed.received.items };

    fn send(&mut self, to: Address, packet: &[u8]) {
        let Some(target) = target_of(to, self.is_ipv6) else {
            return;
        };
        if self.udp.send_to(packet, target).is_ok() {
            self.passed.took(to, packet);
        }
    }

    fn receive(&mut self, packet: &mut [u8; LONGEST_READ]) -> Option<(usize, Address)>
        ensures within { IfSome result (λ next. next.0 ≤ LONGEST_READ) }
        ensures received { Gives self.old.passed.received.items packet.new result self.new.passed.received.items }
        ensures sent { self.new.passed.sent.items ≡ self.old.passed.sent.items }
        ensures from { IfSome result (λ next. IsPort next.1) }
    {
        for _ in 0..MOST_SKIPPED {
            match self.udp.recv_from(packet) {
                Ok((size, from)) => {
                    let from = address_of(from);
                    self.passed.gave(from, &packet[..size]);
                    return Some((size, from));
                }
                Err(error) if error.kind() == ErrorKind::WouldBlock => return None,
                Err(_) => {}
            }
        }
        None
    }
}
