//! How a watcher is printed.
use crate::watching::letter::Letter;
use crate::watching::played::{FIVE, ROOM, game_of};
use c8_spectator::{Spectator, Taken};
use std::test::Fail;

#[test]
fn a_watcher_prints_its_seat_and_its_rows(rt: HostRuntime) -> Result<(), Fail> {
    let game = game_of(rt.alloc(), 20, 1)?;
    let mut spectator = Spectator::open(rt.alloc(), &game, ROOM, FIVE)?;
    let show = Letter::show(&game, 5, 0, 16);
    assert!(rt; spectator.hear(show.bytes()) == Ok(Taken::Kept));
    let text = format!(in rt.alloc(); "{spectator:?}")?;
    assert!(rt; text.as_str() == "Spectator { seat: 5, rows: 16 }");
    Ok(())
}
