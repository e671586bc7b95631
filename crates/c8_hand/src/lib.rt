//! The handshake: the known epoch of each other player, and which links are open.
//!
//! Each opening of a peer has an epoch. A link is open after the other player has named both epochs in a
//! WELCOME, so a datagram of an earlier opening is never taken for one of the present opening. The
//! definitions are in `specs/Links.antt`; `laws` has what follows. Nothing here allocates.
#![tactic(auto)]

mod error;
pub mod laws;
mod link;
mod links;

pub use error::HandError;
pub use links::Links;
