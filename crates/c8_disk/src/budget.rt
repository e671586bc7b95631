//! How many calls a disk in memory serves.
ghost use Rattle.std.specs.Prelude.{◌≡◌, ◌+◌, ◌-◌, true, false, length};

use crate::Arm;
use crate::ghost_list::GhostList;

/// How many calls the disk still serves, and which calls fail before that.
#[derive(Drop)]
pub(crate) struct Budget {
    pub(crate) calls: u32,
    pub(crate) arm: Arm,
    pub(crate) failures: GhostList<()>,
}

impl Budget {
    ghost use Rattle.c8_disk.specs.Budget.{refuses_call, stepped, after_failure};

    /// Returns whether this call is refused, and counts the failure if it is. If only one call was to fail, later ones
    /// do not.
    pub(crate) fn refuses(&mut self) -> bool
        ensures refused { result ≡ refuses_call self.old }
        ensures yes { result ≡ true
            → (self.new.calls ≡ self.old.calls) × (self.new.arm ≡ after_failure self.old.arm)
            × (length self.new.failures.items ≡ length self.old.failures.items + 1) }
        ensures no { result ≡ false → self.new ≡ self.old }
    {
        let is_to_fail = matches!(self.arm, Arm::Stop(0) | Arm::Once(0));
        if self.calls > 0 && !is_to_fail {
            return false;
        }
        if self.arm == Arm::Once(0) {
            self.arm = Arm::Off;
        }
        self.failures = self.failures.and(&());
        true
    }

    /// Counts a served call.
    pub(crate) fn spend(&mut self)
        requires { refuses_call self.old ≡ false }
        ensures calls { self.new.calls ≡ self.old.calls - 1 }
        ensures arm { self.new.arm ≡ stepped self.old.arm }
        ensures failures { self.new.failures ≡ self.old.failures }
    {
        self.calls -= 1;
        self.arm = match self.arm {
            Arm::Off => Arm::Off,
            Arm::Stop(left) => Arm::Stop(left - 1),
            Arm::Once(left) => Arm::Once(left - 1),
        };
    }
}
