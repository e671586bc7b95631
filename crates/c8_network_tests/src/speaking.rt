//! What an address says to a relay, and what it hears.

use c8_relay::{Address, COOKIE_LENGTH, Fate, JOIN_LENGTH, KEY_LENGTH, Limits, Relay};
use std::hash::RandomState;
use std::io;

/// What a relay answered.
#[derive(Clone, Copy)]
pub struct Heard {
    /// Byte 3 of the answer; 0 if there was none.
    pub status: u8,
    pub cookie: [u8; COOKIE_LENGTH],
}

/// The statuses of FORMATS.
pub const PROVE: u8 = 2;

pub const JOINED: u8 = 3;

pub const BUSY: u8 = 4;

pub const FULL: u8 = 5;

/// A microsecond more than a seat may be silent.
pub const SILENT: u64 = 3_000_001;

/// A relay with a key of its own.
pub fn relay(rt: &HostRuntime, rooms: usize, seats_of_host: u32) -> io::Result<Relay> {
    let limits = Limits {
        rooms: rooms.min(1 << 20),
        seats_of_host,
    };
    let hashing = RandomState::new(rt)?;
    Ok(Relay::new(rt.alloc(), limits, hashing, [7; KEY_LENGTH])?)
}

/// A UDP port of the IPv4 host 10.0.0.N.
pub fn port_of(host: u8, port: u16) -> Address {
    let host = 0xffff_0a00_0000 + u128::from(host);
    Address::Udp { host, port }
}

/// A JOIN for a seat of the players' room whose name is 16 times this byte.
pub fn join(seat: u8, name: u8, cookie: &[u8; COOKIE_LENGTH]) -> [u8; JOIN_LENGTH] {
    let mut packet = [name; JOIN_LENGTH];
    packet[..8].copy_from_slice(&[0x43, 0x52, 1, 1, seat, 0, 0, 0]);
    packet[24..].copy_from_slice(cookie);
    packet
}

/// Says a JOIN, and returns what the relay answers.
pub fn say(relay: &mut Relay, now: u64, from: Address, packet: &[u8]) -> Heard {
    let mut cookie = [0; COOKIE_LENGTH];
    match relay.take(now.min(1 << 40), from, packet) {
        Fate::Answer(answer) => {
            cookie.copy_from_slice(&answer[8..]);
            let status = answer[3];
            Heard { status, cookie }
        }
        _ => Heard { status: 0, cookie },
    }
}

/// Says a JOIN twice, with the cookie of the first answer. Returns the second status.
pub fn ask(relay: &mut Relay, now: u64, from: Address, seat: u8, name: u8) -> u8 {
    relay.begin_batch(now);
    let heard = say(relay, now, from, &join(seat, name, &[0; COOKIE_LENGTH]));
    say(relay, now, from, &join(seat, name, &heard.cookie)).status
}
