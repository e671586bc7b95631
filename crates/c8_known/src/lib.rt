//! What a peer knows of every player's inputs, and which frames are confirmed.
//!
//! A peer's journal says which inputs of each player it holds, who was dropped, and where lists were
//! cut. `Known` has this by player, so no call takes longer in a longer match. A frame is confirmed when
//! every player's inputs up to it are settled. The definitions are in `specs/`: a journal's records in
//! `Journal.antt`, what is known in `Known.antt`, what is confirmed in `Confirmed.antt`. `laws` has what
//! follows. Only `Known::new` allocates.
#![tactic(auto)]

mod error;
mod known;
pub mod laws;
mod table;

pub use error::KnownError;
pub use known::Known;
