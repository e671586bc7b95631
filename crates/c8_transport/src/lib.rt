//! What stands between a session and a network: wires, which carry datagrams, and sealers, which keep forged and repeated
//! packets out.
//!
//! A [`Wire`] sends and receives datagrams, and may lose, repeat or delay them; implement it over a transport of your own,
//! or over another wire. [`Traffic`] is what a wire that stores no packets holds for its contract. A [`Gate`] paces the
//! threads of a peer and ends them.
//!
//! In a match with a secret the wire is a [`Sealed`], a sealer over a wire. A sealed packet is a datagram, a counter, and a
//! tag that only the owners of a secret can make ([`Key`]): the first 16 bytes of HMAC-SHA256 (RFC 2104, FIPS 198-1) over
//! the datagram and the counter. Its key comes from the secret and the session, so another game or room has another key.
//! The tag keeps forged and altered packets out, and the counter tells a recorded packet from a new one. Nothing is hidden.
//!
//! A [`Secret`] is 32 bytes that the players of a match share, read from 64 hexadecimal digits; its watchers share another.
//! [`SealKeys`] are made of them for one game and room. A [`Sealer`] seals the datagrams of one player or watcher, each with
//! the next of its [`Counters`], and takes what comes for it: of each sender each counter once ([`Seen`]).
//! `specs/Sealer.antt` says which packets these are, [`laws`] what follows over any traffic. Nothing here takes memory.
#![tactic(auto)]

mod counters;
mod error;
mod gate;
mod given;
mod key;
mod keys;
pub mod laws;
mod sealed;
mod sealer;
mod secret;
mod seen;
mod tagging;
mod traffic;
mod wire;

pub use counters::Counters;
pub use error::{NotTaken, SecretError, Unsealable, WireFailed};
pub use gate::{Gate, Worker};
pub use given::Given;
pub use key::{Key, LONGEST_OPEN, LONGEST_SEALED, Opened, SEAL_LENGTH, SECRET_LENGTH};
pub use keys::{Seal, SealKeys, Secrets};
pub use sealed::Sealed;
pub use sealer::{Sealer, Taken};
pub use secret::{NAME_LENGTH, Secret};
pub use seen::Seen;
pub use tagging::hmac;
pub use traffic::Traffic;
pub use wire::{
    LONGEST_PACKET, LONGEST_READ, LONGEST_SENT, Losses, MOST_ADDED, MOST_PACKETS, Relaying, Wire,
};
