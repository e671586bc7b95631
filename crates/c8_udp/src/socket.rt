//! What a wire needs of the system.

ghost use Rattle.std.specs.Prelude.{◌≡◌, ◌≤◌, ◌∷◌, [], ◌++◌, length, take, IfOk, MatchResult};
ghost use Rattle.std.specs.Counts.{IsPrefixLen};
ghost use Rattle.c8_udp.specs.Letters.{LetterValue, letter};

use crate::error::SocketFault;
use crate::letter::Letter;
use c8_disk::GhostList;
use c8_transport::{LONGEST_READ, Relaying};
use mio::event::Source;
use mio::net::UdpSocket;
use mio::{Interest, Registry, Token};
use std::io;
use std::net::{Net, SocketAddr};

/// A non-blocking socket for datagrams: its calls fail with `WouldBlock` instead of waiting.
pub trait Socket {
    ghost use Rattle.std.specs.Prelude.{List};

    /// The datagrams that the system took to send, oldest first.
    ghost took: { Self → List LetterValue };

    /// The packets that the system gave, oldest first.
    ghost gave: { Self → List LetterValue };

    /// Sends a datagram.
    fn send_to(&mut self, datagram: &[u8], to: SocketAddr) -> io::Result<usize>
        requires { length datagram.now ≤ LONGEST_READ }
        ensures took { MatchResult result
            (λ _. took self.new ≡ took self.old ++ letter to datagram.now ∷ [])
            (λ _. took self.new ≡ took self.old) }
        ensures gave { gave self.new ≡ gave self.old };

    /// Receives the next packet, and returns its length and the sender's address. A packet longer than the buffer is
    /// cut to the buffer's length.
    fn recv_from(&mut self, packet: &mut [u8]) -> io::Result<(usize, SocketAddr)>
        requires { length packet.old ≤ LONGEST_READ }
        ensures within { IfOk result (λ r. IsPrefixLen r.0 packet.new) }
        ensures gave { MatchResult result
            (λ r. gave self.new ≡ gave self.old ++ letter r.1 (take r.0 packet.new) ∷ [])
            (λ _. gave self.new ≡ gave self.old) }
        ensures took { took self.new ≡ took self.old };

    /// What it hears of the relay that it goes through.
    fn relaying(&self) -> Relaying {
        Relaying::Direct
    }
}

/// A socket of the system. Its two calls pass on those of `mio`, and note what they answer: that these notes are true of
/// the system is trusted.
#[derive(Drop)]
pub struct SystemSocket {
    socket: UdpSocket,
    took: GhostList<Letter>,
    gave: GhostList<Letter>,
}

impl SystemSocket {
    /// Opens a socket at an address.
    pub fn bind<R: Net>(rt: &R, local: SocketAddr) -> Result<SystemSocket, SocketFault> {
        match UdpSocket::bind(rt, local) {
            Ok(socket) => Ok(SystemSocket::over(socket)),
            Err(error) => Err(SocketFault::of(&error)),
        }
    }

    /// Takes over an open socket.
    pub fn over(socket: UdpSocket) -> SystemSocket {
        SystemSocket {
            socket,
            took: GhostList::new(),
            gave: GhostList::new(),
        }
    }
}

impl Socket for SystemSocket {
    ghost took = { λ it. it.took.items };

    ghost gave = { λ it. it.gave.items };

    fn send_to(&mut self, datagram: &[u8], to: SocketAddr) -> io::Result<usize> {
        let size = self.socket.send_to(datagram, to)?;
        self.took = self.took.and(&Letter::of(to, datagram));
        Ok(size)
    }

    fn recv_from(&mut self, packet: &mut [u8]) -> io::Result<(usize, SocketAddr)> {
        let (size, from) = self.socket.recv_from(packet)?;
        self.gave = self.gave.and(&Letter::of(from, &packet[..size]));
        Ok((size, from))
    }
}

/// Lets a poll wait for packets at the socket.
impl Source for SystemSocket {
    ghost keeps = { λ old new. (new.took.items ≡ old.took.items) × (new.gave.items ≡ old.gave.items) };

    fn register(
        &mut self,
        registry: &Registry,
        token: Token,
        interests: Interest,
    ) -> io::Result<()> {
        self.socket.register(registry, token, interests)
    }

    fn reregister(
        &mut self,
        registry: &Registry,
        token: Token,
        interests: Interest,
    ) -> io::Result<()> {
        self.socket.reregister(registry, token, interests)
    }

    fn deregister(&mut self, registry: &Registry) -> io::Result<()> {
        self.socket.deregister(registry)
    }
}
