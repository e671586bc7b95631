//! All peers of one match in one program, and the theorem that they agree.
//!
//! A [`World`] has each player's peer over a disk in memory, and every datagram that was sent. What happens to it is a
//! list of [`Event`]s: acts of its players and watchers, and stops and failures inside acts. `World::run` runs them.
//! Its contract says that each is an event of the definitions (`specs/World.antt`) and that any two moments agree
//! (`specs/Headline.antt`, by `specs/Agreement.antt`).
//!
//! `specs/Nodes.antt` and `specs/Table.antt` relate a world of the definitions to real peers and disks,
//! `specs/Run.antt` says what a run is, `specs/Turns.antt` what each event does to nodes and disks. `laws` has the
//! theorem for every list of events, and matches worked out by the same definitions (`specs/Matches.antt`).
//!
//! Inside, a `Node` is one player's peer or its disk, the `Table` has all nodes and all datagrams that were sent, and a
//! `Standing` is what a player knows at the end; `all_agree` compares them. `Node` is public only because contracts
//! name it.
#![tactic(auto)]

mod answer;
mod below;
mod ends;
mod error;
mod event;
pub mod laws;
mod node;
mod pool;
mod table;
mod world;

pub use answer::{Answer, Counts, Posted, Report};
pub use ends::{Ends, Standing, Tally, all_agree};
pub use error::RunError;
pub use event::{Act, Event};
pub use node::Node;
pub use world::World;
