//! Workers in threads of their own.
use crate::gates::{Meeting, Turns};
use crate::sides::{GAME, Outcome, Side, relays};
use c8_game::Game;
use c8_live::{Counters, PLACES, Relay, net_worker};
use c8_transport::Gate;
use std::alloc::Global;
use std::test::Fail;
use std::thread::join;

/// What player 1 enters. Player 2 enters one line, and then no keys.
const KEYS: &str = "0020\n0000\n0020\n0020\n0000\n0000\n0000\n0000\n0020\n0020\n0020\n0020\n";

/// A bound on the turns of a worker, which never waits for the other one.
const TURNS: u64 = 20_000_000;

/// The outcome of a player's worker, if its side can be made.
fn worked<G: Gate>(
    alloc: Global,
    number: u8,
    keys: &str,
    wire: Relay,
    turns: u64,
    gate: &G,
) -> Option<Outcome> {
    let Ok(game) = Game::read(alloc, GAME.as_bytes()) else {
        return None;
    };
    let Ok(side) = Side::new(alloc, &game, number, keys, wire) else {
        return None;
    };
    Some(side.work(turns, gate))
}

/// Whether two workers have played their game to its end: all frames are confirmed, with one machine, and shown.
fn have_played(one: Outcome, two: Outcome) -> bool {
    one.made.is_some()
        && two.made.is_some()
        && one.confirmed == 20
        && two.confirmed == 20
        && one.machine == two.machine
        && one.shown.count() == 20
        && one.shown == two.shown
        && one.counted.ticked == 20
        && one.counted.heard[1] > 0
        && one.counted.heard[0] == 0
        && !one.counted.is_alarmed
}

#[test]
fn two_workers_play_a_game(rt: HostRuntime) -> Result<(), Fail> {
    let (first, second) = relays(rt.alloc(), PLACES)?;
    let gate = Turns { most: u64::MAX };
    let (one, two) = join(
        &rt,
        || worked(rt.alloc(), 1, KEYS, first, TURNS, &gate),
        || worked(rt.alloc(), 2, "0020\n", second, TURNS, &gate),
    );
    let is_played = match (one, two) {
        (Some(one), Some(two)) => have_played(one, two),
        _ => false,
    };
    assert!(rt; is_played);
    Ok(())
}

/// The outcome of a worker whose relay has one place, which the HELLO of its first turn takes.
fn alone(alloc: Global, turns: u64, most: u64) -> Option<Outcome> {
    let (narrow, _other) = relays(alloc, 1).ok()?;
    worked(alloc, 1, KEYS, narrow, turns, &Turns { most })
}

/// Whether a worker makes this many turns, by the number that it is asked for and the number that its gate allows, and
/// loses the HELLO of each turn but the first.
fn makes(alloc: Global, turns: u64, most: u64, made: u64) -> bool {
    match alone(alloc, turns, most) {
        Some(ended) => ended.made == Some(made) && ended.counted.lost == made.saturating_sub(1),
        None => false,
    }
}

/// The outcome of a worker whose viewer has asked it to stop.
fn stopped(alloc: Global) -> Option<Outcome> {
    let (relay, _other) = relays(alloc, PLACES).ok()?;
    let game = Game::read(alloc, GAME.as_bytes()).ok()?;
    let mut side = Side::new(alloc, &game, 2, KEYS, relay).ok()?;
    side.ask_stop();
    Some(side.work(100, &Turns { most: u64::MAX }))
}

/// Whether a worker makes no turn if its viewer has asked it to stop.
fn stops(alloc: Global) -> bool {
    match stopped(alloc) {
        Some(ended) => { ended.made == Some(0) && ended.confirmed == 0 && ended.shown.count() == 0 }
        None => false,
    }
}

/// A worker ends with its gate, after the turns that it is asked for, and when a viewer asks it to stop. If its relay
/// is full, a packet is lost, and counted.
#[test]
fn a_worker_ends_when_it_should(rt: HostRuntime) {
    assert!(rt; makes(rt.alloc(), 100, 6, 6));
    assert!(rt; makes(rt.alloc(), 3, 100, 3));
    assert!(rt; stops(rt.alloc()));
}

/// A net worker and a game worker of one peer: neither makes its second turn before the other has made its first, and
/// both do.
#[test]
fn workers_overlap(rt: HostRuntime) -> Result<(), Fail> {
    let (relay, ends) = relays(rt.alloc(), PLACES)?;
    let (mut wire, _other) = relays(rt.alloc(), PLACES)?;
    let (mut inbox, mut outbox) = ends.into_ends();
    let (counters, gate) = (Counters::new(), Meeting::new(&rt));
    let (ended, moved) = join(
        &rt,
        || worked(rt.alloc(), 1, KEYS, relay, TURNS, &gate),
        || net_worker(&rt, &mut wire, &mut outbox, &mut inbox, &counters, &gate),
    );
    let made = match ended {
        Some(ended) => ended.made,
        None => None,
    };
    assert!(rt; made == Some(2));
    assert!(rt; moved.is_ok());
    assert!(rt; gate.turns() == 4);
    Ok(())
}
