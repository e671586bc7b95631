//! One thread with a pen and two viewers. Another implementation of SHA-256 gave the bits, from state bytes that were
//! written by hand.
ghost use Rattle.std.specs.Prelude.{◌≡◌, [], IfOk};
ghost use Rattle.c8_live.specs.Tokens.{new_viewer};
ghost use Rattle.c8_thread_tests.specs.Idle.{first_start};

use crate::run::{Publisher, counting};
use c8_game::Game;
use c8_live::laws::the_first_start_is_serial;
use c8_live::{Board, Look, Pen, Viewer};
use c8_machine::Machine;
use std::alloc::Global;
use std::test::Fail;

/// Makes a board with no confirmed frame, with its pen and two viewers.
pub(crate) fn opened(alloc: Global, game: &Game) -> Result<(Board, Pen, Viewer, Viewer), Fail>
    ensures pen { IfOk result (λ r.
        r.1 ≡ record { board = r.0; game = game.now; from = first_start game.now; rows = [] }) }
    ensures one { IfOk result (λ r. r.2 ≡ new_viewer r.0 game.now (first_start game.now) []) }
    ensures two { IfOk result (λ r. r.3 ≡ new_viewer r.0 game.now (first_start game.now) []) }
{
    game.in_range();
    the_first_start_is_serial();
    let (board, pen, mut viewers) = Board::open(alloc, game, 0, &Machine::start(game), 2)?;
    let Some(one) = viewers.pop() else {
        return Err(Fail::new("no viewer"));
    };
    let Some(two) = viewers.pop() else {
        return Err(Fail::new("no second viewer"));
    };
    Ok((board, pen, one, two))
}

/// Returns whether a look prints this text.
fn prints(alloc: Global, look: Look, text: &str) -> bool {
    match format!(in alloc; "{look}") {
        Ok(printed) => printed.as_str() == text,
        Err(_) => false,
    }
}

/// Returns whether a look's `Debug` text is this one.
fn shows(alloc: Global, look: Look, text: &str) -> bool {
    match format!(in alloc; "{look:?}") {
        Ok(shown) => shown.as_str() == text,
        Err(_) => false,
    }
}

#[test]
fn looks_show_what_was_published(rt: HostRuntime) -> Result<(), Fail> {
    let game = counting(rt.alloc())?;
    let (board, pen, mut one, two) = opened(rt.alloc(), &game)?;
    let mut publisher = Publisher::start(&game, pen);
    let fresh = board.look(&mut one);
    assert!(rt; fresh.count() == 0 && prints(rt.alloc(), fresh, "frames 0, mark 08f0d54264"));
    publisher.go_on(3);
    publisher.publish(&board);
    let third = board.look(&mut one);
    assert!(rt; third.count() == 3 && third.bits() == 0x6a_552a_6a1c);
    assert!(rt; shows(rt.alloc(), third, "Look { count: 3, bits: 456695376412 }"));
    let Publisher { pen, .. } = publisher;
    let (last, _, _) = board.look_with(pen, two);
    assert!(rt; last == third);
    Ok(())
}

#[test]
fn a_wish_for_the_end_is_seen(rt: HostRuntime) -> Result<(), Fail> {
    let game = counting(rt.alloc())?;
    let (board, mut pen, mut one, _) = opened(rt.alloc(), &game)?;
    assert!(rt; !board.stop_asked(&mut pen));
    board.ask_stop(&mut one);
    assert!(rt; board.stop_asked(&mut pen));
    assert!(rt; board.stop_asked(&mut pen));
    Ok(())
}
