//! Runs events, and gives what two players have at the end.
use c8_game::Player;
use c8_world::{Answer, Event, RunError, Tally, World};
use std::alloc::Global;

pub(crate) const ONE: Player = Player { number: 1 };

pub(crate) const TWO: Player = Player { number: 2 };

/// Returns the answers to some events; `None` if memory is refused.
pub(crate) fn answers_to(
    alloc: Global,
    world: &mut World<'_>,
    events: &[Event],
) -> Option<Vec<Answer>> {
    match world.run(alloc, events) {
        Ok(report) => Some(report.answers),
        Err(RunError::Memory(_)) => None,
    }
}

/// Returns what the two players of a match have, if they agree.
pub(crate) fn ends(alloc: Global, world: &World<'_>) -> Option<[Tally; 2]> {
    let ends = world.ends(alloc).ok()?;
    match ends.players.as_slice() {
        [one, two] if ends.agree => Some([*one, *two]),
        _ => None,
    }
}
