//! The bytes of a datagram that was sent.
use crate::run::{ONE, TWO, answers_to};
use c8_game::Game;
use c8_peer::Kind;
use c8_world::{Act, Event, World};
use std::alloc::Global;
use std::test::Fail;

/// Two players, a window of one frame and no delay.
const GAME: &[u8] =
    b"players 2\nipf 10\nframes 100\ndelay 0\nwindow 1\nseed 0\nmask1 000f\nmask2 fff0\ncode 1200\n";

/// HELLO from player 1 to player 2, in room 7 and epoch 1, with the other's epoch unknown.
const HELLO: &[u8] =
    b"\x43\x38\x01\x01\x6d\x05\x0b\xae\xdf\x4a\xbc\x06\x01\x02\0\0\0\0\0\x01\0\0\0\0";

const EVENTS: [Event; 2] = [
    Event::Do(Act::Open(ONE)),
    Event::Do(Act::Say(ONE, TWO, Kind::Hello)),
];

/// Whether player 1's HELLO is kept, and nothing else.
fn is_kept(alloc: Global, world: &mut World<'_>) -> bool {
    answers_to(alloc, world, &EVENTS).is_some()
        && world.said() == 1
        && world.datagram(0) == Some(HELLO)
        && world.datagram(1).is_none()
}

#[test]
fn what_is_said_is_kept(rt: HostRuntime) -> Result<(), Fail> {
    let game = Game::read(rt.alloc(), GAME)?;
    let mut world = World::new(rt.alloc(), &game, 7, 20000, 4000)?;
    assert!(rt; is_kept(rt.alloc(), &mut world));
    Ok(())
}
