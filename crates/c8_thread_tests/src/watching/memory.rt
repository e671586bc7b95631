//! Out of memory while a watcher is made.
//!
//! With enough memory the test checks the new watcher. `rt try --test --fail-alloc N` refuses the Nth allocation. If
//! that is the watcher's, the test fails with the name `STANDS`, or with another name if it finds something wrong.
use crate::watching::played::{ROOM, SIX, game_of};
use c8_game::Game;
use c8_machine::Machine;
use c8_spectator::Spectator;
use std::test::Fail;

const STANDS: &str = "out of memory, and the next watcher is as any";

/// Whether a watcher in seat 6 has no rows yet, and the machine before its first frame.
fn is_new(game: &Game, spectator: &Spectator<'_>) -> bool {
    spectator.seat() == SIX
        && spectator.rows().is_empty()
        && spectator.count() == 0
        && *spectator.shown() == Machine::start(game)
}

#[test]
fn memory_is_refused_to_a_watcher(rt: HostRuntime) -> Result<(), Fail> {
    let game = game_of(rt.alloc(), 20, 1)?;
    let Ok(spectator) = Spectator::open(rt.alloc(), &game, ROOM, SIX) else {
        let spectator = Spectator::open(rt.alloc(), &game, ROOM, SIX)?;
        assert!(rt; is_new(&game, &spectator));
        return Err(Fail::new(STANDS));
    };
    assert!(rt; is_new(&game, &spectator));
    Ok(())
}
