//! A pen and two viewers, each in a thread of its own.
ghost use Rattle.std.specs.Prelude.{◌≡◌, []};
ghost use Rattle.c8_thread_tests.specs.Idle.{first_start};

use crate::board::opened;
use crate::run::{Publisher, counting};
use c8_game::Game;
use c8_live::{Board, Pen, Viewer};
use std::test::Fail;
use std::thread::join;

/// How many frames the pen publishes, one by one.
const FRAMES: u32 = 10_000;

/// Publishes each frame.
fn publish_all(board: &Board, pen: Pen, game: &Game)
    requires board { pen.board ≡ board.now }
    requires game { pen.game ≡ game.now }
    requires from { pen.from ≡ first_start game.now }
    requires rows { pen.rows ≡ [] }
{
    let mut publisher = Publisher::start(game, pen);
    for _ in 0..FRAMES {
        publisher.go_on(1);
        publisher.publish(board);
    }
}

/// Looks until all frames are published. Returns whether no count fell.
fn look_all(board: &Board, mut viewer: Viewer) -> bool
    requires { viewer.board ≡ board.now }
{
    let mut last = 0;
    for _ in 0..u64::MAX {
        let count = board.look(&mut viewer).count();
        if count < last {
            return false;
        }
        last = count;
        if last == FRAMES {
            return true;
        }
    }
    false
}

#[test]
fn counts_never_fall(rt: HostRuntime) -> Result<(), Fail> {
    let game = counting(rt.alloc())?;
    let (board, pen, one, two) = opened(rt.alloc(), &game)?;
    let (_, (first, second)) = join(
        &rt,
        || publish_all(&board, pen, &game),
        || -> (bool, bool)
            requires one { one.board ≡ board }
            requires two { two.board ≡ board }
        { join(&rt, || look_all(&board, one), || look_all(&board, two)) },
    );
    assert!(rt; first && second);
    Ok(())
}
