//! A watched match that ends after enough frames.

use crate::drawing::{GAME, Shows, asked_for};
use c8_game::Game;
use c8_watch::watch_on;
use std::sync::Wait;
use std::thread::Threads;
use std::time::Clock;

/// A limit on the turns that is never reached. Each turn takes a millisecond or more, and sees a frame.
const TURNS: u64 = 2_000;

/// How many frames are enough.
const ENOUGH: u64 = 3;

/// How many frames are watched; `None` if watching fails.
fn watched<R>(rt: &R) -> u64
where
    R: Clock + Threads + Wait + Sync + AllocGlobal,
{
    let Ok(game) = Game::read(rt.alloc(), GAME.as_bytes()) else {
        return 0;
    };
    let asked = asked_for(TURNS, Some(ENOUGH), false);
    let mut out = Vec::new(rt.alloc());
    match watch_on(rt, &asked, &game, Shows::new(&game), &mut out) {
        Ok(played) => u64::from(played.frames),
        Err(_) => 0,
    }
}

#[test]
fn who_watches_stops_at_enough_frames(rt: HostRuntime) {
    let frames = watched(&rt);
    assert!(rt; frames >= ENOUGH && frames < TURNS);
}
