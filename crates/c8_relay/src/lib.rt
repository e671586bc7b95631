//! A relay carries the datagrams of matches between addresses that cannot reach each other. This is what it does with each
//! packet, without IO.
//!
//! An address says a JOIN for a seat of a room ([`read`]). A [`Relay`] answers with a cookie, and gives the seat to who
//! says that cookie ([`Relay::take`]). A datagram goes, as it is, from who sits in the seat that byte 12 names to who sits
//! in the seat that byte 13 names, in one room. A seat that is silent for [`SILENCE`] may be given to another.
//!
//! [`turn`] does this over any [`Ether`]. Its contract is the theorem of a relay: whatever comes, it sends only packets that
//! it received, between two who asked for these seats, or answers to JOINs; no more packets and no more bytes than came
//! (`specs/Honest.antt`). With a secret the players need not trust it: it can lose, delay and repeat packets, and make none.
#![tactic(auto)]

mod address;
mod bucket;
mod control;
mod cookie;
mod ether;
mod relay;
mod seats;
mod sitting;
mod tally;
mod turning;

pub use address::{Address, Lane, Place, Sender};
pub use bucket::{BURST, Bucket, COST, passes_no_more};
pub use control::{
    ANSWER_LENGTH, Answer, COOKIE_LENGTH, JOIN_LENGTH, Join, MOST_SEATS, Route, Spoken, Status,
    read, read_answer,
};
pub use cookie::KEY_LENGTH;
pub use ether::{Ether, LONGEST_READ};
pub use relay::{BATCH, Fate, Relay};
pub use seats::{Limits, SILENCE, Seated};
pub use sitting::Cause;
pub use turning::{Turned, begin, honest_at_first, leave, turn};
