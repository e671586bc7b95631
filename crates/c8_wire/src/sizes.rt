//! The greatest lengths of datagrams and their contents.

/// The length of a header, in bytes.
pub const HEADER_LENGTH: usize = 24;

/// The greatest length of a body, in bytes: a DATA of 64 inputs in version 1.
pub(crate) const LONGEST_BODY: usize = 150;

/// The greatest length of a datagram, in bytes.
pub const LONGEST_DATAGRAM: usize = 174;

/// The most rows in a SHOW.
pub const MOST_ROWS: usize = 16;

/// The most inputs in a run.
pub const LONGEST_RUN: usize = 64;
