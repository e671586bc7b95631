//! Packets that a net worker moves, and packets that full queues lose.
use crate::gates::Turns;
use crate::sides::relays;
use c8_game::Player;
use c8_live::{Counters, Relay, net_worker};
use c8_transport::{LONGEST_PACKET, Wire};
use c8_wire::{LONGEST_DATAGRAM, Seat};
use std::alloc::{AllocError, Global};
use std::sync::Wait;
use std::test::Fail;

const TWO: Player = Player { number: 2 };

/// A HELLO of player 1 to player 2.
const HELLO: &[u8] =
    b"C8\x01\x01\x01\x02\x03\x04\x05\x06\x07\x08\x01\x02\x00\x00\x00\x00\x00\x01\x00\x00\x00\x00";

/// Whether a relay takes a packet, or loses it.
fn is_sent(relay: &mut Relay, bytes: &[u8]) -> bool {
    bytes.len() <= LONGEST_DATAGRAM && relay.send(Seat::from(TWO), bytes).is_ok()
}

/// Whether the next packet that has come is this one; an empty one stands for none.
fn has_come(relay: &mut Relay, wanted: &[u8]) -> bool {
    let mut packet = [0; LONGEST_PACKET];
    match relay.receive(&mut packet) {
        Ok(Some(size)) => &packet[..size] == wanted,
        Ok(None) => wanted.is_empty(),
        Err(_) => false,
    }
}

/// Whether a relay takes these packets, or loses them.
fn are_sent(relay: &mut Relay, one: &[u8], two: &[u8], three: &[u8]) -> bool {
    has_come(relay, b"") && is_sent(relay, one) && is_sent(relay, two) && is_sent(relay, three)
}

/// Whether exactly these packets have come; an empty one stands for none.
fn have_come(relay: &mut Relay, one: &[u8], two: &[u8]) -> bool {
    has_come(relay, one) && has_come(relay, two) && has_come(relay, b"")
}

/// Whether a net worker moves, in one turn, what waits in a relay of two places and on a wire of three. The relay is
/// full for the game's third packet, the inbox for the wire's third one, and a single byte is no datagram.
fn are_moved<R: Wait>(rt: &R, alloc: Global) -> Result<bool, AllocError> {
    let (mut game, net) = relays(alloc, 2)?;
    let (mut wire, mut world) = relays(alloc, 3)?;
    let (mut inbox, mut outbox) = net.into_ends();
    let counters = Counters::new();
    let is_posted = are_sent(&mut game, HELLO, &[7], &[8])
        && are_sent(&mut world, &[3], &[2], &[1]);
    let moved = net_worker(
        rt,
        &mut wire,
        &mut outbox,
        &mut inbox,
        &counters,
        &Turns { most: 1 },
    );
    Ok(
        is_posted
            && moved.is_ok()
            && game.losses().lost == 1
            && counters.take().lost == 1
            && have_come(&mut world, HELLO, b"")
            && have_come(&mut game, &[3], &[2]),
    )
}

#[test]
fn a_net_worker_moves_packets(rt: HostRuntime) -> Result<(), Fail> {
    assert!(rt; are_moved(&rt, rt.alloc())?);
    Ok(())
}
