//! Facts for callers that belong to no single call: laws of the drop round. Each is the contract of a function that
//! does nothing.
ghost use Rattle.std.specs.Prelude.{◌≡◌, ◌≢◌, ℕ, Some, true, false};
ghost use Rattle.c8_known.specs.Known.{KnownValue, player_in, Plays};
ghost use Rattle.c8_round.specs.Round.{ChairValue, report_of, with_report, is_ready, HasAnswered, IsOldOrNew};

/// A leaver may be cut only if there is a LEAVE of it, and each player without a LEAVE, other than player 1, has
/// answered with at most as many of the leaver's inputs as player 1 holds.
pub fn ready_means_all_have_answered()
    ensures leaves { (c : ChairValue) (k : KnownValue) (leaver : ℕ)
        → is_ready c k leaver ≡ true → (player_in k leaver).leaving ≡ true }
    ensures answered { (c : ChairValue) (k : KnownValue) (leaver : ℕ)
        → is_ready c k leaver ≡ true → (q : ℕ) → Plays k q → q ≢ 1
        → (player_in k q).leaving ≡ false → HasAnswered c k leaver q }
{}

/// An answer was there before, or it is the new one.
pub fn a_report_changes_one_place()
    ensures { (c : ChairValue) (leaver stayer held l s n : ℕ)
        → report_of (with_report c leaver stayer held) l s ≡ Some n
        → IsOldOrNew c leaver stayer held l s n }
{}
