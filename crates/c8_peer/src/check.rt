//! The progress of a checkpoint.

/// Which record of a checkpoint a call added.
#[derive(Clone, Copy, Debug, PartialEq, Eq)]
pub enum Check {
    /// The piece with this number, 0 to 35.
    Piece(u32),
    /// The digest of all pieces. The checkpoint after this number of frames is complete, and the
    /// next opening begins there.
    Done(u32),
}
