//! Facts for callers that belong to no single call. Each is the contract of a function that does nothing.
ghost use Rattle.std.specs.Prelude.{◌≡◌, ℕ, ◌+◌, ◌*◌, ◌/◌, ◌≤◌, List, Option, Some};
ghost use Rattle.c8_game.specs.Rules.{Rules};
ghost use Rattle.c8_digest.specs.Marks.{mark_step, newest_of};
ghost use Rattle.c8_known.specs.Known.{KnownValue};
ghost use Rattle.c8_known.specs.Confirmed.{confirmed};
ghost use Rattle.c8_game.specs.declared.row.Row.{Row};
ghost use Rattle.c8_roll.specs.Rollback.{KeepsRows, IsOldestChange, IsOldestWrong};
ghost use Rattle.c8_digest.specs.Origin.{Origin, first_origin};
ghost use Rattle.c8_roll.specs.Roll.{mark_after, marks_up_to, RollValue, roll_of, roll_since, IsOnTheWay};

/// The newest mark is that of the machine after the last multiple of 32 confirmed frames.
pub fn the_newest_mark_is_at_the_last_step()
    ensures up_to { (rules : Rules) (k : KnownValue) (n : ℕ)
        → newest_of (marks_up_to rules k n)
        ≡ Some (mark_after rules k (mark_step * (n / mark_step))) }
    ensures roll { (rules : Rules) (k : KnownValue) (v : RollValue) → v ≡ roll_of rules k
        → newest_of v.marks
        ≡ Some (mark_after rules k (mark_step * (confirmed k / mark_step))) }
{}

/// If the confirmed rows lead to an origin, the roll that is run from there is the roll that is run from the first
/// frame. The origin before the first frame is such an origin.
pub fn a_run_may_begin_on_the_way()
    ensures roll { (rules : Rules) (k : KnownValue) (from : Origin) → IsOnTheWay rules k from
        → roll_since rules from k ≡ roll_of rules k }
    ensures first { (rules : Rules) (k : KnownValue) → IsOnTheWay rules k (first_origin rules) }
{}

/// For a player at most `window` + 1 frames ahead, if the rows that were run are kept (`KeepsRows`): the answer of
/// `settle` is the oldest frame whose best guess changed.
pub fn the_answer_is_the_oldest_wrong_guess()
    ensures { (window : ℕ) (before now : KnownValue) (rows : List Row) (answer : Option ℕ)
        → KeepsRows window before rows → before.ticks ≤ confirmed before + window + 1
        → IsOldestChange rows (confirmed before) now answer → IsOldestWrong before now answer }
{}
