//! The drop round: after player 1 drops a player, it makes all who stay keep the same inputs of that player.
//!
//! Each player that stays answers how many of the leaver's inputs it holds. Once player 1 holds as many
//! as each of them, it cuts the leaver's list there. `Chair` is player 1's part, `Stayer` the part of
//! each other player. Both are in memory only, and each opening starts with empty ones. The definitions
//! are in `specs/Round.antt`; `laws` has what follows. Nothing here allocates.
#![tactic(auto)]

mod chair;
pub mod laws;
mod stayer;

pub use chair::Chair;
pub use stayer::Stayer;
