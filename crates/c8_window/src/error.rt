//! Why an acknowledgement is refused.
use thiserror::Error;

/// The acknowledgement is for more inputs than the own list has.
#[derive(Clone, Copy, Debug, PartialEq, Eq, Error)]
#[error("more inputs are acknowledged than there are")]
pub struct BadAck;
