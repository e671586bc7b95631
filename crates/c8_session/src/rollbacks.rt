//! How often a peer rolled back.

/// How often a peer rolled back because an input differed from its prediction, and the most frames that one rollback
/// simulated again.
#[derive(Clone, Copy, Debug, Default, PartialEq, Eq)]
pub struct Rollbacks {
    pub count: u32,
    pub longest: u32,
}

impl Rollbacks {
    /// Counts a call that simulated `frames` frames again; 0 frames are no rollback.
    pub(crate) fn note(&mut self, frames: u32) {
        if frames > 0 {
            self.count = self.count.saturating_add(1);
            self.longest = self.longest.max(frames);
        }
    }
}
