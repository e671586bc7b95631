//! Whether a disk in a file is down.
ghost use Rattle.std.specs.Prelude.{◌≡◌, ◌+◌, true, length};

use crate::GhostList;

/// The state of a disk: it goes down with the first call that fails, and stays down.
#[derive(Drop)]
pub(crate) struct Health {
    pub(crate) is_down: bool,
    pub(crate) failures: GhostList<()>,
}

impl Health {
    /// Counts a failure, and takes the disk down.
    pub(crate) fn fail(&mut self)
        ensures down { self.new.is_down ≡ true }
        ensures failures { length self.new.failures.items ≡ length self.old.failures.items + 1 }
    {
        self.failures = self.failures.and(&());
        self.is_down = true;
    }
}
