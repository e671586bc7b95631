//! What a wire that seals gives, and what it turns away.

use crate::seal::loops::{Has, Letter, Loop, ONE, SESSION, TWO, letter_of, sealer_of};
use c8_transport::{
    LONGEST_OPEN, LONGEST_PACKET, LONGEST_READ, LONGEST_SENT, Losses, Sealed, Wire,
};
use c8_wire::{HEADER_LENGTH, Seat};
use std::time::Duration;

/// A datagram of a kind, from a seat to another, that carries nothing.
fn datagram(kind: u8, from: u8, to: u8) -> [u8; HEADER_LENGTH] {
    let mut bytes = [0; HEADER_LENGTH];
    bytes[..4].copy_from_slice(&[0x43, 0x38, 1, kind]);
    bytes[4..12].copy_from_slice(&SESSION.to_be_bytes());
    bytes[12] = from;
    bytes[13] = to;
    bytes[19] = 1;
    bytes
}

/// A SHOW of no rows, from player 1 to watcher 5.
fn show() -> [u8; HEADER_LENGTH + 6] {
    let mut bytes = [0; HEADER_LENGTH + 6];
    bytes[..HEADER_LENGTH].copy_from_slice(&datagram(SHOW, 1, 5));
    bytes[15] = 6;
    bytes
}

const HELLO: u8 = 1;

const SHOW: u8 = 7;

const FIVE: Seat = Seat { number: 5 };

/// The wire below after player 1 has sent a datagram over it, sealed.
fn sent(has: Has, session: u64, datagram: &[u8]) -> Option<Loop> {
    if datagram.len() > LONGEST_SENT {
        return None;
    }
    let mut wire = Sealed::over(Loop::new(), sealer_of(has, ONE, session)?);
    wire.send(TWO, datagram).ok()?;
    Some(wire.into_below())
}

/// The next datagram that a seat hears of what waits, and its length; the wire below afterwards, and what was turned away.
#[derive(Drop)]
struct Heard {
    bytes: [u8; LONGEST_PACKET],
    size: Option<usize>,
    below: Loop,
    losses: Losses,
}

fn hear(has: Has, seat: Seat, below: Loop) -> Option<Heard> {
    let mut wire = Sealed::over(below, sealer_of(has, seat, SESSION)?);
    let mut bytes = [0xee; LONGEST_PACKET];
    let size = wire.receive(&mut bytes).ok()?;
    let losses = wire.losses();
    Some(Heard {
        bytes,
        size,
        below: wire.into_below(),
        losses,
    })
}

/// Whether a datagram that one machine sends is heard at a seat, byte for byte, nothing behind it is touched, and the wire
/// below learns its sender and its counter.
fn is_heard(from: Has, to: Has, seat: Seat, datagram: &[u8]) -> Option<bool> {
    let below = sent(from, SESSION, datagram)?;
    let heard = hear(to, seat, below)?;
    let size = datagram.len();
    Some(
        heard.size == Some(size)
            && heard.losses == Losses::default()
            && heard.bytes.starts_with(datagram)
            && heard.bytes[size.min(LONGEST_PACKET)..]
                .iter()
                .all(|byte| *byte == 0xee)
            && heard.below.sender == Some((ONE, 1 << 32))
            && heard.below.told == 1,
    )
}

/// Whether nothing of what waits is heard, and it is counted as not sealed.
fn is_turned_away(to: Has, below: Loop) -> Option<bool> {
    let heard = hear(to, TWO, below)?;
    let counted = Losses {
        unsealed: 1,
        ..Losses::default()
    };
    Some(heard.size.is_none() && heard.losses == counted && heard.below.told == 0)
}

/// The first packet that waits.
fn first(below: &Loop) -> Option<Letter> {
    below.waiting.get(0).copied()
}

/// A wire below on which one packet waits.
fn with(packet: &[u8]) -> Option<Loop> {
    let mut below = Loop::new();
    below.waiting.try_push(letter_of(packet)).ok()?;
    Some(below)
}

/// Whether no packet opens in which one bit is flipped, or that is cut.
fn no_other_opens() -> Option<bool> {
    let whole = first(&sent(Has::Players, SESSION, &datagram(HELLO, 1, 2))?)?;
    let size = whole.size.min(LONGEST_READ);
    for bit in 0..8 * size {
        let mut changed = whole;
        if let Some(byte) = changed.bytes.get_mut(bit / 8) {
            *byte ^= 1 << (bit % 8);
        }
        let below = with(&changed.bytes[..size])?;
        if !is_turned_away(Has::Both, below)? {
            return Some(false);
        }
    }
    for cut in 0..size {
        let below = with(&whole.bytes[..cut])?;
        if !is_turned_away(Has::Players, below)? {
            return Some(false);
        }
    }
    Some(true)
}

/// The packet of the longest datagram has 198 bytes, and a longer datagram is not sent.
fn the_longest_is_sealed() -> Option<bool> {
    let whole = first(&sent(Has::Players, SESSION, &[9; LONGEST_OPEN])?)?;
    let longer = sent(Has::Players, SESSION, &[9; LONGEST_OPEN + 1])?;
    Some(whole.size == 198 && longer.waiting.is_empty())
}

/// SHOW opens by the watchers' key alone, and all else by the players'.
fn each_kind_has_its_key() -> Option<bool> {
    let (hello, show) = (datagram(HELLO, 1, 2), show());
    let by_watchers = is_heard(Has::Both, Has::Watchers, FIVE, &show)?;
    let by_players = is_heard(Has::Both, Has::Players, TWO, &hello)?;
    let no_show = is_turned_away(Has::Players, sent(Has::Both, SESSION, &show)?)?;
    let no_hello = is_turned_away(Has::Watchers, sent(Has::Both, SESSION, &hello)?)?;
    // without a key nothing is sent
    let unsent = sent(Has::Watchers, SESSION, &hello)?;
    let other = is_turned_away(Has::Both, sent(Has::Both, SESSION + 1, &hello)?)?;
    Some(by_watchers && by_players && no_show && no_hello && other && unsent.waiting.is_empty())
}

/// What opens and is no datagram to this seat is turned away, as a packet that does not open.
fn others_are_turned_away() -> Option<bool> {
    let to_four = sent(Has::Players, SESSION, &datagram(HELLO, 1, 4))?;
    let nonsense = sent(Has::Players, SESSION, b"nonsense")?;
    Some(is_turned_away(Has::Players, to_four)? && is_turned_away(Has::Players, nonsense)?)
}

/// A packet that comes again is counted and not heard, and so is what stands behind it heard once.
fn a_copy_is_turned_away() -> Option<bool> {
    let mut above = Sealed::over(Loop::new(), sealer_of(Has::Players, ONE, SESSION)?);
    above.send(TWO, &datagram(HELLO, 1, 2)).ok()?;
    above.send(TWO, &datagram(HELLO, 1, 2)).ok()?;
    let mut below = above.into_below();
    let copy = first(&below)?;
    below.waiting.try_push(copy).ok()?;
    let mut wire = Sealed::over(below, sealer_of(Has::Players, TWO, SESSION)?);
    let mut bytes = [0; LONGEST_PACKET];
    let mut sizes = [None; 3];
    for place in 0..3 {
        sizes[place] = wire.receive(&mut bytes).ok()?;
    }
    let counted = Losses {
        repeated: 1,
        ..Losses::default()
    };
    let below = wire.losses() == counted;
    let last = wire.into_below().sender == Some((ONE, (1 << 32) + 1));
    Some(below && last && sizes == [Some(HEADER_LENGTH), Some(HEADER_LENGTH), None])
}

/// How much is heard of a flood: what each of three calls gives, and how many packets were turned away by then.
type Flood = [(Option<usize>, u64); 3];

/// What is heard where as many packets that do not open come before each of two that do. The wire waits before each call,
/// as at the end of a turn, if `rests` is set.
fn heard_in_a_flood(junk: u16, rests: bool) -> Option<Flood> {
    let hello = datagram(HELLO, 1, 2);
    let mut above = Sealed::over(Loop::new(), sealer_of(Has::Players, ONE, SESSION)?);
    above.send(TWO, &hello).ok()?;
    above.send(TWO, &hello).ok()?;
    let mut below = above.into_below();
    below.junk = junk;
    below.again = junk;
    let mut wire = Sealed::over(below, sealer_of(Has::Players, TWO, SESSION)?);
    let mut bytes = [0; LONGEST_PACKET];
    let mut flood = [(None, 0); 3];
    for place in 0..3 {
        if rests {
            wire.wait(Duration::from_secs(0));
        }
        let size = wire.receive(&mut bytes).ok()?;
        flood[place] = (size, wire.losses().unsealed);
    }
    Some(flood)
}

/// A turn looks at 4096 packets, until the wire sends or waits.
fn a_flood_ends_a_turn() -> Option<bool> {
    let size = Some(HEADER_LENGTH);
    Some(
        heard_in_a_flood(3_000, false)? == [(size, 3_000), (None, 4_095), (None, 4_095)]
            && heard_in_a_flood(3_000, true)? == [(size, 3_000), (size, 6_000), (None, 9_000)],
    )
}

/// The wire below waits as long as the one above is asked to.
fn waits_below() -> Option<bool> {
    let most = Duration::from_millis(20);
    let mut wire = Sealed::over(Loop::new(), sealer_of(Has::Players, TWO, SESSION)?);
    wire.wait(most);
    Some(wire.into_below().waited == most)
}

#[test]
fn what_is_sealed_is_heard(rt: HostRuntime) {
    assert!(rt; is_heard(Has::Players, Has::Both, TWO, &datagram(HELLO, 1, 2)) == Some(true));
    assert!(rt; the_longest_is_sealed() == Some(true));
    assert!(rt; waits_below() == Some(true));
}

#[test]
fn nothing_else_is_heard(rt: HostRuntime) {
    assert!(rt; no_other_opens() == Some(true));
    assert!(rt; each_kind_has_its_key() == Some(true));
    assert!(rt; others_are_turned_away() == Some(true));
    assert!(rt; a_copy_is_turned_away() == Some(true));
    assert!(rt; a_flood_ends_a_turn() == Some(true));
}
