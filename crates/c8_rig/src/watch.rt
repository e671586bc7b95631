//! Paces the players of a match in threads, and observes how far they are.

use c8_game::Player;
use c8_transport::Gate;

/// A gate of the players' threads that also observes how the log grows.
pub trait Watch: Gate {
    /// Called after a player's peer was opened, and after each of its turns, with the number of notes of its entry.
    fn noted(&self, player: Player, notes: usize);
}
