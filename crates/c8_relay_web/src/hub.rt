//! A UDP socket and all connections, as one ether.
ghost use Rattle.std.specs.Prelude.{◌≡◌, [], IfOk, IfSome, ◌≤◌};
ghost use Rattle.c8_relay_web.specs.Connections.{IsConnection};

use crate::site::Site;
use crate::web::Web;
use c8_relay::{Address, Ether, LONGEST_READ};
use c8_udp::{Passed, RelaySocket};
use mio::net::TcpListener;
use mio::{Events, Registry, Token};
use std::io;
use std::io::ErrorKind;
use std::net::{Net, SocketAddr};

/// The token of the UDP socket.
const PACKETS: Token = Token(0);

/// How often another port is tried where the system may choose it.
const MOST_TRIES: usize = 16;

/// Opens a UDP socket, and a listener at the TCP port of its number. Where the system chooses the port, another one is tried
/// if that number is taken.
fn sockets<R: Net>(rt: &R, local: SocketAddr) -> io::Result<(RelaySocket, TcpListener)>
    ensures sent { IfOk result (λ both. both.0.passed.sent.items ≡ []) }
    ensures received { IfOk result (λ both. both.0.passed.received.items ≡ []) }
{
    for _ in 0..MOST_TRIES {
        let socket = RelaySocket::open(rt, local)?;
        match TcpListener::bind(rt, socket.local()?) {
            Ok(listener) => return Ok((socket, listener)),
            Err(error) if local.port() != 0 || error.kind() != ErrorKind::AddrInUse => {
                return Err(error);
            }
            Err(_) => {}
        }
    }
    Err(ErrorKind::AddrInUse.into())
}

/// A UDP socket, and all connections. The two take turns, so that a flood of one does not hold up the other.
#[derive(Drop)]
pub struct Hub {
    socket: RelaySocket,
    web: Web,
    /// Whether the socket may have something to read.
    is_socket_ready: bool,
    /// Whether connections are asked first this time.
    is_web_first: bool,
    /// How many packets were lost because their connection read too slowly.
    lost: u64,
    pub passed: Passed,
}

impl Hub {
    /// Opens the UDP socket, and listens at the TCP port of its number. It takes memory for all connections.
    pub fn open<R: Net + AllocGlobal>(rt: &R, local: SocketAddr, site: Site) -> io::Result<Hub>
        ensures sent { IfOk result (λ hub. hub.passed.sent.items ≡ []) }
        ensures received { IfOk result (λ hub. hub.passed.received.items ≡ []) }
    {
        let (socket, listener) = sockets(rt, local)?;
        Ok(Hub {
            socket,
            web: Web::new(rt.alloc(), listener, site)?,
            is_socket_ready: true,
            is_web_first: false,
            lost: 0,
            passed: Passed::new(),
        })
    }

    /// Its own address.
    pub fn local(&self) -> io::Result<SocketAddr> {
        self.socket.local()
    }

    /// How many connections there are.
    pub fn connections(&self) -> usize {
        self.web.connections()
    }

    /// How many files it serves.
    pub fn files(&self) -> usize {
        self.web.files()
    }

    /// How many packets were lost because their connection read too slowly.
    pub fn lost(&self) -> u64 {
        self.lost
    }

    /// Lets a poll wait for packets and connections.
    pub fn register(&mut self, registry: &Registry) -> io::Result<()>
        ensures { self.new.passed ≡ self.old.passed }
    {
        self.socket.register(registry, PACKETS)?;
        self.web.register(registry)
    }

    /// Whether there may be something to receive without waiting.
    pub fn is_ready(&self) -> bool {
        self.is_socket_ready || self.web.is_ready()
    }

    /// Tells the time, in microseconds.
    pub fn set_time(&mut self, now: u64)
        ensures { self.new.passed ≡ self.old.passed }
    {
        self.web.set_time(now);
    }

    /// Notes all that a poll reported, and accepts new connections.
    pub fn note_all(&mut self, registry: &Registry, events: &Events)
        ensures { self.new.passed ≡ self.old.passed }
    {
        for event in events.iter() {
            if event.token() == PACKETS {
                self.is_socket_ready = true;
            } else {
                self.web.note(registry, event);
            }
        }
    }

    /// Closes connections that took too long, and asks the system again for what a poll may have missed.
    pub fn sweep(&mut self, registry: &Registry)
        ensures { self.new.passed ≡ self.old.passed }
    {
        self.is_socket_ready = true;
        self.web.sweep();
        self.web.accept(registry);
    }

    /// The next of the addresses of connections that have ended.
    pub fn next_left(&mut self) -> Option<Address>
        ensures connection { IfSome result (λ address. IsConnection address) }
        ensures same { self.new.passed ≡ self.old.passed }
    {
        self.web.next_left()
    }

    /// Takes the next packet of the socket.
    fn from_socket(&mut self, packet: &mut [u8; LONGEST_READ]) -> Option<(usize, Address)>
        ensures within { IfSome result (λ next. next.0 ≤ LONGEST_READ) }
        ensures same { self.new.passed ≡ self.old.passed }
    {
        if !self.is_socket_ready {
            return None;
        }
        let next = self.socket.receive(packet);
        self.is_socket_ready = next.is_some();
        next
    }

    /// Takes the next packet of the socket or of a connection, whichever is first.
    fn next(&mut self, packet: &mut [u8; LONGEST_READ]) -> Option<(usize, Address)>
        ensures within { IfSome result (λ next. next.0 ≤ LONGEST_READ) }
        ensures same { self.new.passed ≡ self.old.passed }
    {
        self.is_web_first = !self.is_web_first;
        if self.is_web_first
            && let Some(next) = self.web.next(packet)
        {
            return Some(next);
        }
        if let Some(next) = self.from_socket(packet) {
            return Some(next);
        }
        self.web.next(packet)
    }
}

impl Ether for Hub {
    ghost sent = { λ hub. hub.passed.sent.items };

    ghost received = { λ hub. hub.passed.received.items };

    fn send(&mut self, to: Address, packet: &[u8]) {
        match to {
            Address::Udp { .. } => self.socket.send(to, packet),
            Address::Connection { .. } => {
                if !self.web.say(to, packet) {
                    self.lost = self.lost.saturating_add(1);
                    return;
                }
            }
        }
        self.passed.took(to, packet);
    }

    fn receive(&mut self, packet: &mut [u8; LONGEST_READ]) -> Option<(usize, Address)> {
        let (size, from) = self.next(packet)?;
        self.passed.gave(from, &packet[..size]);
        Some((size, from))
    }
}
