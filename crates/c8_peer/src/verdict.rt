//! What a peer does with a datagram that it takes.
use crate::heard::Heard;
use c8_record::Record;

/// What to do with a datagram that nothing refuses. The memory notes the rest of it, except after `Alarm`.
#[derive(Clone, Copy, Debug)]
pub(crate) enum Verdict<'a> {
    /// Record nothing.
    Nothing,
    /// The sender's machine differs: raise the alarm, and keep nothing else.
    Alarm,
    /// Record this, then give this answer.
    Keep(Record<'a>, Heard),
}
