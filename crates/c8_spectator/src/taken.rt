//! The result of a SHOW that was taken.

/// The result of a SHOW that was taken.
#[derive(Clone, Copy, Debug, PartialEq, Eq)]
pub enum Taken {
    /// It had no new row.
    Nothing,
    /// It had new rows, and the watcher has them now.
    Kept,
}
