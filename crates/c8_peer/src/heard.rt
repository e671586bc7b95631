//! The answer to a datagram that the peer took.

/// What a datagram that was taken did.
#[derive(Clone, Copy, Debug, PartialEq, Eq)]
pub enum Heard {
    /// It added no record. The memory may have changed: links, acknowledgements, a drop round, or a watcher's rows.
    Nothing,
    /// It added one record to the journal.
    Kept,
    /// Player one has dropped this peer's player. The journal has the record, and only readers work from now on.
    Out,
}
