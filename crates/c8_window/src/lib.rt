//! Which own inputs are still to be sent to each player.
//!
//! Each other player acknowledges how many of the own inputs it holds. The rest is retransmitted to it
//! until it is acknowledged, at most 64 inputs at a time. The definitions are in `specs/Window.antt`.
//! Nothing here allocates.
#![tactic(auto)]

mod error;
mod window;

pub use error::BadAck;
pub use window::Window;
