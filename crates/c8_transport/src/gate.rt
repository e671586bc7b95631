//! What paces the threads of a peer, and ends them.

/// The threads of a peer that make turns.
#[derive(Clone, Copy, Debug, PartialEq, Eq, Hash)]
pub enum Worker {
    /// Moves packets between the wire and the inlets.
    Net,
    /// Owns the peer.
    Game,
}

/// Decides whether a worker goes on, and waits between its turns. The workers share it.
pub trait Gate {
    /// Called before each turn; the first turn is 0. `false` ends the worker.
    fn before(&self, worker: Worker, turn: u64) -> bool;

    /// Called after each turn.
    fn after(&self, worker: Worker, turn: u64);
}
