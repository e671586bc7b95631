//! The socket of a match: straight to the others, or through a relay.

ghost use Rattle.std.specs.Prelude.{◌≡◌, ◌≤◌, ◌++◌, ◌∷◌, [], List, IfOk, IsTrue, MatchResult, length, take};
ghost use Rattle.std.specs.Counts.{IsPrefixLen};
ghost use Rattle.c8_udp.specs.Letters.{letter, LetterValue};
ghost use Rattle.c8_udp.specs.Members.{HasAsked, HasHeard, IsAnswering, IsSameRoute};

use crate::addresses::is_same;
use crate::letter::Letter;
use crate::membership::Membership;
use crate::socket::{Socket, SystemSocket};
use c8_disk::GhostList;
use c8_relay::read_answer;
use c8_transport::{LONGEST_READ, Relaying};
use mio::event::Source;
use mio::{Interest, Registry, Token};
use std::io;
use std::io::ErrorKind;
use std::net::SocketAddr;
use std::time::{Clock, Duration};

/// The most answers of a relay in one call, so that a flood of them cannot stop it.
const MOST_ANSWERS: u16 = 256;

/// A socket that asks a relay for a seat each second, if it has one, and keeps the relay's answers to itself. All else
/// passes as it is: a relay takes datagrams at its own address, and tells by their headers for whom they are.
#[derive(Drop)]
pub struct Route<'r, R, S = SystemSocket> {
    rt: &'r R,
    socket: S,
    member: Option<Membership>,
    took: GhostList<Letter>,
    gave: GhostList<Letter>,
}

impl<'r, R: Clock, S: Socket> Route<'r, R, S> {
    /// Goes straight, or as a member through its relay.
    pub fn new(rt: &'r R, socket: S, member: Option<Membership>) -> Route<'r, R, S> {
        Route {
            rt,
            socket,
            member,
            took: GhostList::new(),
            gave: GhostList::new(),
        }
    }

    /// Says the JOIN that is due, if one is. A JOIN that the system does not take is lost.
    fn ask(&mut self)
        ensures took { self.new.took.items ≡ self.old.took.items }
        ensures gave { self.new.gave.items ≡ self.old.gave.items }
        ensures member { IsSameRoute self.old.member self.new.member }
        ensures asked { HasAsked self.old.member (S.took self.old.socket) (S.took self.new.socket) }
        ensures quiet { S.gave self.new.socket ≡ S.gave self.old.socket }
    {
        let now = self.now();
        let Some(member) = &mut self.member else {
            return;
        };
        let relay = member.relay;
        if let Some(join) = member.due(now) {
            let _ = self.socket.send_to(&join.bytes(), relay);
        }
    }

    /// Takes an answer of the relay; false if the packet is none.
    fn hears(&mut self, packet: &[u8], from: SocketAddr) -> bool
        ensures took { self.new.took.items ≡ self.old.took.items }
        ensures gave { self.new.gave.items ≡ self.old.gave.items }
        ensures member { IsSameRoute self.old.member self.new.member }
        ensures socket { self.new.socket ≡ self.old.socket }
        ensures answer { IsTrue result → IsAnswering (letter from packet.now) }
    {
        let now = self.now();
        let Some(member) = &mut self.member else {
            return false;
        };
        let Some(answer) = read_answer(packet) else {
            return false;
        };
        if !is_same(member.relay, from) {
            return false;
        }
        member.hear(answer, now);
        true
    }

    /// The time since the clock's start; 0 if the clock cannot be read.
    fn now(&self) -> Duration {
        self.rt.monotonic().unwrap_or(Duration::ZERO)
    }
}

impl<'r, R: Clock, S: Socket> Socket for Route<'r, R, S> {
    ghost took = { λ it. it.took.items };

    ghost gave = { λ it. it.gave.items };

    fn send_to(&mut self, datagram: &[u8], to: SocketAddr) -> io::Result<usize>
        requires { length datagram.now ≤ LONGEST_READ }
        ensures took { MatchResult result
            (λ _. self.new.took.items ≡ self.old.took.items ++ letter to datagram.now ∷ [])
            (λ _. self.new.took.items ≡ self.old.took.items) }
        ensures gave { self.new.gave.items ≡ self.old.gave.items }
        ensures passed { MatchResult result
            (λ _. S.took self.new.socket ≡ S.took self.old.socket ++ letter to datagram.now ∷ [])
            (λ _. S.took self.new.socket ≡ S.took self.old.socket) }
    {
        let size = self.socket.send_to(datagram, to)?;
        self.took = self.took.and(&Letter::of(to, datagram));
        Ok(size)
    }

    fn recv_from(&mut self, packet: &mut [u8]) -> io::Result<(usize, SocketAddr)>
        requires { length packet.old ≤ LONGEST_READ }
        ensures within { IfOk result (λ r. IsPrefixLen r.0 packet.new) }
        ensures gave { MatchResult result
            (λ r. self.new.gave.items ≡ self.old.gave.items ++ letter r.1 (take r.0 packet.new) ∷ [])
            (λ _. self.new.gave.items ≡ self.old.gave.items) }
        ensures took { self.new.took.items ≡ self.old.took.items }
        ensures asked { HasAsked self.old.member (S.took self.old.socket) (S.took self.new.socket) }
        ensures heard { MatchResult result
            (λ r. (before : List LetterValue) × HasHeard (S.gave self.old.socket) before
            × (S.gave self.new.socket ≡ before ++ letter r.1 (take r.0 packet.new) ∷ []))
            (λ _. HasHeard (S.gave self.old.socket) (S.gave self.new.socket)) }
    {
        for _ in 0..MOST_ANSWERS {
            self.ask();
            let (size, from) = self.socket.recv_from(packet)?;
            if !self.hears(&packet[..size], from) {
                self.gave = self.gave.and(&Letter::of(from, &packet[..size]));
                return Ok((size, from));
            }
        }
        Err(ErrorKind::WouldBlock.into())
    }

    fn relaying(&self) -> Relaying {
        match &self.member {
            Some(member) => member.standing(self.now()),
            None => Relaying::Direct,
        }
    }
}

/// Lets a poll wait for packets at the socket.
impl<'r, R, S: Source> Source for Route<'r, R, S> {
    ghost keeps = { λ old new. (new.took.items ≡ old.took.items) × (new.gave.items ≡ old.gave.items) };

    fn register(
        &mut self,
        registry: &Registry,
        token: Token,
        interests: Interest,
    ) -> io::Result<()> {
        self.socket.register(registry, token, interests)
    }

    fn reregister(
        &mut self,
        registry: &Registry,
        token: Token,
        interests: Interest,
    ) -> io::Result<()> {
        self.socket.reregister(registry, token, interests)
    }

    fn deregister(&mut self, registry: &Registry) -> io::Result<()> {
        self.socket.deregister(registry)
    }
}
