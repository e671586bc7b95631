//! The progress of a replay.
use c8_game::Game;

/// A replay: the match of its journal, how many records it has taken, and the last epoch in them.
#[derive(Clone, Copy)]
pub(crate) struct Replay<'a> {
    pub(crate) game: &'a Game,
    pub(crate) room: u64,
    pub(crate) count: usize,
    pub(crate) epoch: u32,
}
