//! A session inside an engine: one peer, its turns, and the rows that the engine runs its own machine on.
//!
//! [`Engine`] has the calls of a `Session` of c8_session, each with that call's contract. [`Engine::step`] returns the
//! frame from which the engine must run its machine again, and the rows to run (`specs/Steps.antt`). [`laws`] has what an
//! engine can rely on, whatever its machine is. Only `Engine::open` takes memory. An [`Endpoint`] is an engine whose
//! journal is a [`Medium`]: memory, or a file by its descriptors. With a secret it sends and takes sealed packets. A
//! [`WatchEndpoint`] is a watcher. A handle for C owns an [`AnyEndpoint`].
#![tactic(auto)]

mod any;
mod endpoint;
mod engine;
mod events;
mod head;
pub mod laws;
mod lead;
mod medium;
mod news;
mod patience;
mod steps;
mod watch;

pub use any::{AnyEndpoint, Role, Side, role_of};
pub use endpoint::{Endpoint, Sender, Undelivered};
pub use engine::Engine;
pub use events::{Event, EventKind, Events, Shown, Waiting};
pub use head::{Head, head_of};
pub use lead::Lead;
pub use medium::Medium;
pub use news::{Alarm, Greeting, News};
pub use patience::Patience;
pub use steps::{Stepped, Steps};
pub use watch::{Unshown, WatchEndpoint};
