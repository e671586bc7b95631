//! One pair.

/// A stretch of equal inputs: its length, 1 to 64 in a run, and its key set.
#[derive(Clone, Copy, Debug, PartialEq, Eq)]
pub struct Pair {
    pub times: u8,
    pub keys: u16,
}
