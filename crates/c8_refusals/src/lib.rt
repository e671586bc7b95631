//! Why a peer refuses a call: one enum for each kind of call, with the state after each refusal.
//!
//! `specs/Errors.antt` has the numbers that programs print. The contracts of the calls in `c8_peer` say when each
//! refusal comes, and before which others.
#![tactic(auto)]

mod error;

pub use error::{CheckError, DecideError, LeaveError, OpenError, Refused, TickError, Unsayable};
