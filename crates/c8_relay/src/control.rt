//! What a relay reads of a packet, and the bytes of its answers.
ghost use Rattle.std.specs.Prelude.{◌≡◌, ◌≤◌, ◌<◌, ◌+◌, ◌∷◌, [], ℕ, length, slice_index, IfSome, MatchOption};
ghost use Rattle.c8_relay.specs.Reading.{IsDatagram, IsJoin, IsRead, asked, lane_code, lane_of_key, lane_of_kind, spelled, status_code};

use crate::address::{Lane, Place};
use c8_transport::{LONGEST_SEALED, SEAL_LENGTH};
use c8_wire::{DatagramKind, HEADER_LENGTH, KeyOf};

/// How many bytes a cookie has.
pub const COOKIE_LENGTH: usize = 16;

/// How many bytes of an answer stand before its cookie.
const HEAD_LENGTH: usize = 8;

/// How many bytes a JOIN has.
pub const JOIN_LENGTH: usize = 40;

/// How many bytes an answer has.
pub const ANSWER_LENGTH: usize = 24;

/// The shortest sealed packet: a header and a seal.
const SHORTEST: usize = HEADER_LENGTH + SEAL_LENGTH;

/// The most seats of a room.
pub const MOST_SEATS: u8 = 6;

const KIND_JOIN: u8 = 1;

const VERSION: u8 = 1;

/// The header of a datagram, as far as a relay reads it.
#[derive(Clone, Copy)]
pub struct Route {
    pub lane: Lane,
    /// From 1 to 6, as `to`.
    pub from: u8,
    pub to: u8,
}

/// An address asks for a seat.
#[derive(Clone, Copy)]
pub struct Join {
    pub place: Place,
    pub cookie: [u8; COOKIE_LENGTH],
}

/// What a packet says to a relay.
#[derive(Clone, Copy)]
pub enum Spoken {
    Join(Join),
    Datagram(Route),
    Nothing,
}

/// What a relay says to a JOIN.
#[derive(Clone, Copy, PartialEq, Eq)]
pub enum Status {
    /// Say it again, with this cookie.
    Prove,
    /// The seat is yours.
    Joined,
    /// Another address has the seat, and was heard.
    Busy,
    /// The relay, or the share of the host, is full.
    Full,
}

/// What a relay answered.
#[derive(Clone, Copy)]
pub struct Answer {
    pub status: Status,
    pub cookie: [u8; COOKIE_LENGTH],
}

/// Reads a packet.
pub fn read(packet: &[u8]) -> Spoken
    ensures { IsRead packet.now result }
{
    if let Some(route) = read_datagram(packet) {
        return Spoken::Datagram(route);
    }
    match read_join(packet) {
        Some(join) => Spoken::Join(join),
        None => Spoken::Nothing,
    }
}

fn read_datagram(packet: &[u8]) -> Option<Route>
    ensures { MatchOption result ((route : Route) → IsDatagram packet.now route → ⊥) (IsDatagram packet.now) }
{
    if packet.len() < SHORTEST || packet.len() > LONGEST_SEALED {
        return None;
    }
    if packet[0] != 0x43 || packet[1] != 0x38 || packet[12] == packet[13] {
        return None;
    }
    let lane = lane_of_kind(packet[3])?;
    let from = seat_of(packet[12])?;
    let to = seat_of(packet[13])?;
    Some(Route { lane, from, to })
}

fn read_join(packet: &[u8]) -> Option<Join>
    ensures { MatchOption result ((join : Join) → IsJoin packet.now join → ⊥) (IsJoin packet.now) }
{
    if packet.len() != JOIN_LENGTH {
        return None;
    }
    if packet[0] != 0x43 || packet[1] != 0x52 || packet[2] != VERSION || packet[3] != KIND_JOIN {
        return None;
    }
    let seat = seat_of(packet[4])?;
    let lane = lane_of(packet[5])?;
    let mut name = [0; 16];
    name.copy_from_slice(&packet[8..24]);
    let mut cookie = [0; COOKIE_LENGTH];
    cookie.copy_from_slice(&packet[24..]);
    let name = u128::from_be_bytes(name);
    let place = Place { name, lane, seat };
    Some(Join { place, cookie })
}

/// The lane of the kind with a code, if there is one.
fn lane_of_kind(code: u8) -> Option<Lane>
    ensures { result ≡ lane_of_kind code }
{
    match DatagramKind::try_from(code) {
        Ok(kind) => Some(lane_of_key(kind.shape().key)),
        Err(_) => None,
    }
}

fn lane_of_key(key: KeyOf) -> Lane
    ensures { result ≡ lane_of_key key }
{
    match key {
        KeyOf::Players => Lane::Players,
        KeyOf::Watchers => Lane::Watchers,
    }
}

fn lane_of(code: u8) -> Option<Lane>
    ensures { MatchOption result ((lane : Lane) → lane_code lane ≡ code → ⊥) (λ lane. lane_code lane ≡ code) }
{
    match code {
        0 => Some(Lane::Players),
        1 => Some(Lane::Watchers),
        _ => None,
    }
}

fn seat_of(number: u8) -> Option<u8>
    ensures { MatchOption result (1 ≤ number → number ≤ 6 → ⊥) (λ seat. (seat ≡ number) × (1 ≤ number) × (number ≤ 6)) }
{
    if number == 0 || number > MOST_SEATS {
        return None;
    }
    Some(number)
}

impl Join {
    /// Its bytes, which [`read`] reads.
    pub fn bytes(&self) -> [u8; JOIN_LENGTH]
        ensures { result ≡ asked self.now }
    {
        let (seat, lane) = (self.place.seat, self.place.lane.code());
        let [a, b, c, d, e, f, g, h, i, j, k, l, m, n, o, p] = self.place.name.to_be_bytes();
        let mut bytes = [
            0x43, 0x52, VERSION, KIND_JOIN, seat, lane, 0, 0, a, b, c, d, e, f, g, h, i, j, k, l,
            m, n, o, p, 0, 0, 0, 0, 0, 0, 0, 0, 0, 0, 0, 0, 0, 0, 0, 0,
        ];
        bytes[JOIN_LENGTH - COOKIE_LENGTH..].copy_from_slice(&self.cookie);
        bytes
    }
}

impl Lane {
    fn code(self) -> u8
        ensures { result ≡ lane_code self }
    {
        match self {
            Lane::Players => 0,
            Lane::Watchers => 1,
        }
    }
}

/// Reads an answer of a relay; `None` if the packet is none.
pub fn read_answer(packet: &[u8]) -> Option<Answer>
    ensures { IfSome result (λ answer. packet.now ≡ spelled answer.status answer.cookie) }
{
    if packet.len() != ANSWER_LENGTH {
        return None;
    }
    let status = Status::of(packet[3])?;
    let mut cookie = [0; COOKIE_LENGTH];
    cookie.copy_from_slice(&packet[HEAD_LENGTH..]);
    let answer = status.answer(&cookie);
    if packet == answer.as_slice() {
        Some(Answer { status, cookie })
    } else {
        None
    }
}

impl Status {
    /// The status with a code, if there is one.
    fn of(code: u8) -> Option<Status>
        ensures { MatchOption result ((status : Status) → status_code status ≡ code → ⊥) (λ status. status_code status ≡ code) }
    {
        match code {
            2 => Some(Status::Prove),
            3 => Some(Status::Joined),
            4 => Some(Status::Busy),
            5 => Some(Status::Full),
            _ => None,
        }
    }

    fn code(self) -> u8
        ensures { result ≡ status_code self }
    {
        match self {
            Status::Prove => 2,
            Status::Joined => 3,
            Status::Busy => 4,
            Status::Full => 5,
        }
    }

    /// The answer of this status, with a cookie.
    pub fn answer(self, cookie: &[u8; COOKIE_LENGTH]) -> [u8; ANSWER_LENGTH]
        ensures { result ≡ spelled self cookie.now }
    {
        let mut answer = [0; ANSWER_LENGTH];
        answer[0] = 0x43;
        answer[1] = 0x52;
        answer[2] = VERSION;
        answer[3] = self.code();
        answer[HEAD_LENGTH..].copy_from_slice(cookie);
        answer
    }
}
