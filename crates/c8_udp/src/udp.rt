//! The wire to the other players and the watchers over one UDP socket.

ghost use Rattle.std.specs.Prelude.{◌≡◌, ◌≤◌, ◌<◌, ◌-◌, ℕ, List, length, take, IfOk, IfSome, MatchResult, None, slice_index_or, slice_set};
ghost use Rattle.c8_transport.specs.Wire.{MayTake, Gives};
ghost use Rattle.c8_udp.specs.Contacts.{address_of, after};
ghost use Rattle.c8_udp.specs.Letters.{IsPosted, HasCome};
ghost use Rattle.c8_udp.specs.declared.contacts.Contact.TheVariants.{Nobody};

use crate::addresses::{Addresses, MOST_SEATS};
use crate::contacts::{Contact, Place};
use crate::error::SocketFault;
use crate::socket::{Socket, SystemSocket};
use c8_transport::{
    LONGEST_PACKET, LONGEST_READ, LONGEST_SENT, Losses, Relaying, Traffic, Wire, WireFailed,
};
use c8_wire::Seat;
use mio::event::Source;
use mio::{Interest, Registry, Token};
use std::io;
use std::io::ErrorKind;
use std::net::{Net, SocketAddr};

/// The most packets from unknown addresses and reports of lost datagrams that `receive` skips before it returns `None`.
/// The limit keeps a flood from holding up a turn for long. It is high, so that the match's own packets get through.
const MOST_SKIPPED: u16 = 4096;

/// A UDP socket, and the contacts of the other players and the watchers. It returns only packets from their addresses,
/// unless `hears_all` is set. A temporary error of the network counts as a lost datagram; only a closed socket fails.
#[derive(Drop)]
pub struct Udp<S = SystemSocket> {
    socket: S,
    contacts: [Contact; MOST_SEATS],
    /// Whether it returns packets from any address.
    hears_all: bool,
    /// The address of the last packet that it returned.
    from: Option<SocketAddr>,
    traffic: Traffic,
    losses: Losses,
}

impl Udp<SystemSocket> {
    /// Opens a socket at the local address.
    pub fn open<R: Net>(rt: &R, addresses: &Addresses) -> Result<Udp<SystemSocket>, SocketFault> {
        let socket = SystemSocket::bind(rt, addresses.local)?;
        Ok(Udp::over(socket, addresses))
    }
}

impl<S> Udp<S> {
    /// Makes a wire over an open socket, whatever its local address is.
    pub fn over(socket: S, addresses: &Addresses) -> Udp<S>
        ensures { result.socket ≡ socket }
    {
        Udp {
            socket,
            contacts: addresses.contacts(),
            hears_all: false,
            from: None,
            traffic: Traffic::new(),
            losses: Losses::default(),
        }
    }

    /// Makes the wire return packets from any address. The wire above it finds out who sealed a packet, and reports it by
    /// `tell_sender`.
    pub fn hearing_all(self) -> Udp<S>
        ensures traffic { result.traffic ≡ self.traffic }
        ensures socket { result.socket ≡ self.socket }
    {
        let mut udp = self;
        udp.hears_all = true;
        udp
    }

    /// Returns the socket.
    pub fn socket(&mut self) -> &mut S {
        &mut self.socket
    }

    /// Returns whether `receive` accepts packets from an address.
    fn hears(&self, from: SocketAddr) -> bool {
        if self.hears_all {
            return true;
        }
        for contact in &self.contacts {
            if contact.is_named(from) {
                return true;
            }
        }
        false
    }

    /// Returns the address of a player or watcher, if there is one.
    fn address_of(&self, seat: Seat) -> Option<SocketAddr>
        ensures { result ≡ address_of (slice_index_or self.now.contacts (seat.number - 1) Nobody) }
    {
        self.contacts[place_of_seat(seat)].address()
    }

    /// Counts a datagram that the network lost.
    fn lose(&mut self)
        ensures traffic { self.new.traffic ≡ self.old.traffic }
        ensures socket { self.new.socket ≡ self.old.socket }
        ensures contacts { self.new.contacts ≡ self.old.contacts }
    {
        self.losses.lost = self.losses.lost.saturating_add(1);
    }

    /// Counts a packet from an unknown address.
    fn turn_away(&mut self)
        ensures traffic { self.new.traffic ≡ self.old.traffic }
        ensures socket { self.new.socket ≡ self.old.socket }
        ensures contacts { self.new.contacts ≡ self.old.contacts }
    {
        self.losses.foreign = self.losses.foreign.saturating_add(1);
    }
}

/// Lets a poll wait for packets at the socket.
impl<S: Source> Source for Udp<S> {
    ghost keeps = { λ old new. (new.traffic ≡ old.traffic) × S.keeps old.socket new.socket };

    fn register(
        &mut self,
        registry: &Registry,
        token: Token,
        interests: Interest,
    ) -> io::Result<()> {
        self.socket.register(registry, token, interests)
    }

    fn reregister(
        &mut self,
        registry: &Registry,
        token: Token,
        interests: Interest,
    ) -> io::Result<()> {
        self.socket.reregister(registry, token, interests)
    }

    fn deregister(&mut self, registry: &Registry) -> io::Result<()> {
        self.socket.deregister(registry)
    }
}

/// Returns the place among all players and watchers, from 0.
fn place_of_seat(seat: Seat) -> usize
    ensures is { result ≡ seat.number - 1 }
    ensures within { result < MOST_SEATS }
{
    usize::from(seat.number - 1)
}

impl<S: Socket> Wire for Udp<S> {
    ghost sent = { λ udp. udp.traffic.sent.items };

    ghost received = { λ udp. udp.traffic.received.items };

    fn send(&mut self, to: Seat, datagram: &[u8]) -> Result<(), WireFailed>
        requires { length datagram.now ≤ LONGEST_SENT }
        ensures sent { MayTake self.old.traffic.sent.items datagram.now self.new.traffic.sent.items }
        ensures received { self.new.traffic.received.items ≡ self.old.traffic.received.items }
        ensures posted { IsPosted (address_of (slice_index_or self.old.contacts (to.number - 1) Nobody)) datagram.now
            (S.took self.old.socket) (S.took self.new.socket)
            self.old.traffic.sent.items self.new.traffic.sent.items }
        ensures contacts { self.new.contacts ≡ self.old.contacts }
    {
        let Some(address) = self.address_of(to) else {
            return Ok(());
        };
        match self.socket.send_to(datagram, address) {
            Ok(_) => self.traffic.took(datagram),
            Err(error) if is_closed(&error) => return Err(WireFailed::Closed),
            Err(_) => self.lose(),
        }
        Ok(())
    }

    fn receive(&mut self, packet: &mut [u8]) -> Result<Option<usize>, WireFailed>
        requires { LONGEST_PACKET ≤ length packet.old }
        ensures within { IfOk result (λ next. IfSome next (λ size. size ≤ length packet.old)) }
        ensures received { Gives self.old.traffic.received.items packet.new result
            self.new.traffic.received.items }
        ensures sent { self.new.traffic.sent.items ≡ self.old.traffic.sent.items }
        ensures come { IfOk result (λ next. IfSome next (λ size. HasCome
            (S.gave self.old.socket) (S.gave self.new.socket) (take size packet.new) self.new.from)) }
        ensures contacts { self.new.contacts ≡ self.old.contacts }
    {
        let most = packet.len().min(LONGEST_READ);
        for _ in 0..MOST_SKIPPED {
            match self.socket.recv_from(&mut packet[..most]) {
                Ok((size, from)) if self.hears(from) => {
                    self.from = Some(from);
                    self.traffic.gave(&packet[..size]);
                    return Ok(Some(size));
                }
                Ok(_) => self.turn_away(),
                Err(error) if error.kind() == ErrorKind::WouldBlock => return Ok(None),
                Err(error) if is_closed(&error) => return Err(WireFailed::Closed),
                // The system may report a lost datagram at any later call. Packets may wait behind that report.
                Err(_) => self.lose(),
            }
        }
        Ok(None)
    }

    fn tell_sender(&mut self, sender: Seat, counter: u64)
        ensures received { self.new.traffic.received.items ≡ self.old.traffic.received.items }
        ensures sent { self.new.traffic.sent.items ≡ self.old.traffic.sent.items }
        ensures unknown { self.old.from ≡ None → self.new.contacts ≡ self.old.contacts }
        ensures learnt { IfSome self.old.from (λ address. self.new.contacts ≡ slice_set self.old.contacts (sender.number - 1)
            (after (record { address = address; counter = counter })
            (slice_index_or self.old.contacts (sender.number - 1) Nobody))) }
    {
        let place = place_of_seat(sender);
        if let Some(address) = self.from {
            self.contacts[place] = self.contacts[place].heard(Place { address, counter });
        }
    }

    fn losses(&self) -> Losses {
        self.losses
    }

    fn relaying(&self) -> Relaying {
        self.socket.relaying()
    }
}

/// Returns whether the socket is closed. Every other error is temporary: no buffer space, nobody listens, a host or
/// network is unreachable, a firewall refuses, an interface has lost its address.
fn is_closed(error: &io::Error) -> bool {
    error
        .raw_os_error()
        .is_some_and(|number| number == libc::EBADF || number == libc::ENOTSOCK)
}
