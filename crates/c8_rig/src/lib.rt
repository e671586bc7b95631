//! Peers in threads of their own, over a network in memory that loses, repeats and reorders at will; and the theorem
//! that they agree.
//!
//! An [`Ether`] is a log of what each peer did, under a lock, with all that was said. Each player has an [`Entry`] with
//! the list of its own notes. [`rig_worker`] plays one peer in a thread and notes each call, but sayings that the peer
//! refuses; [`gather`] joins the entries and the peers; [`rig`] does it all. Proved, whatever the threads do: the log
//! is lawful, each entry's notes are its player's part of it, and they lead the peer to its state. So the log is a list
//! of events of a world, and any two moments of it agree ([`laws`], `specs/Log.antt`; `specs/Rigged.antt` has the end
//! of a match).
//!
//! A proof knows only the type of a locked value. So tokens without bytes know the log (`tokens` over `atomic_table`,
//! with the rule in `specs/checked/Rule.antt`): the keeper's token is under the lock and knows the whole log, and each
//! entry has a token that knows its player's part. A [`Room`] names an ether in the types; the caller's proof picks it.
#![tactic(auto)]

mod ether;
mod gathering;
pub mod laws;
mod note;
mod threads;
mod tokens;
mod views;
mod watch;
mod worker;

pub use ether::{Entry, Ether, Room, Unnamed};
pub use gathering::{Gathering, gather};
pub use note::Note;
pub use threads::rig;
pub use watch::Watch;
pub use worker::rig_worker;
