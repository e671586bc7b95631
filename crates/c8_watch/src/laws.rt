//! Facts for callers that belong to no single call. Each is the contract of a function that does nothing.
ghost use Rattle.std.specs.Prelude.{◌≡◌, ◌<◌, ◌≤◌, ◌+◌, ◌^◌, ℕ, List, [], ◌∷◌, ◌++◌, Option};
ghost use Rattle.c8_game.specs.Rules.{Rules, AreInRange};
ghost use Rattle.c8_known.specs.Growth.{Begins};
ghost use Rattle.c8_known.specs.Known.{known_of};
ghost use Rattle.c8_known.specs.Confirmed.{confirmed_rows};
ghost use Rattle.c8_peer.specs.State.{State, Reply};
ghost use Rattle.c8_peer.specs.Runs.{Deed, IsRun, never_opened};
ghost use Rattle.c8_wire.specs.checked.Read.{read};
ghost use Rattle.c8_spectator.specs.Growth.{IsStillWatched};
ghost use Rattle.c8_spectator.specs.Watching.{WatchValue, first_watch, hear};
ghost use Rattle.c8_watch.specs.Turns.{after_hearing, HasHeard, IsTurn, AreTurns};
ghost use Rattle.c8_watch.specs.Shown.{ShowsWereSaid};

use c8_peer::laws::a_peers_word_stands;
use c8_spectator::laws::{
    what_is_heard_takes_nothing_back, what_is_shown_of_one_list_begins_it,
    what_is_still_watched_chains,
};
use c8_transport::Wire;

/// What a watcher hears: nothing (`none`), one more packet (`more`), nothing more (`still`), and a smaller number of
/// packets under a larger bound (`fewer`).
pub fn hearings_join<W: Wire>()
    ensures none { (w : WatchValue) (wire : W) → HasHeard W.Wire 0 w w wire wire }
    ensures more { (most : ℕ) (first middle : WatchValue) (before between after : W) (bytes : List ℕ)
        → HasHeard W.Wire most first middle before between
        → W.received after ≡ W.received between ++ bytes ∷ [] → W.sent after ≡ W.sent between
        → HasHeard W.Wire (most + 1) first (hear middle (read bytes)).watch before after }
    ensures still { (most : ℕ) (first last : WatchValue) (before between after : W)
        → HasHeard W.Wire most first last before between
        → W.received after ≡ W.received between → W.sent after ≡ W.sent between
        → HasHeard W.Wire most first last before after }
    ensures fewer { (few most : ℕ) (first last : WatchValue) (before after : W) → few ≤ most
        → HasHeard W.Wire few first last before after
        → HasHeard W.Wire most first last before after }
{}

/// Turns: none (`none`), and one more (`more`).
pub fn turns_join<W: Wire>()
    ensures none { (w : WatchValue) (wire : W) → AreTurns W.Wire 0 w w wire wire }
    ensures more { (n : ℕ) (first middle last : WatchValue) (before between after : W)
        → AreTurns W.Wire n first middle before between → IsTurn W.Wire middle last between after
        → AreTurns W.Wire (n + 1) first last before after }
{}

/// A turn takes no row back: game, match and seat stay, and the new rows begin with the old ones.
pub fn a_turn_takes_nothing_back<W: Wire>()
    ensures { (old new : WatchValue) (before after : W) → IsTurn W.Wire old new before after
        → IsStillWatched old new }
{
    what_is_heard_takes_nothing_back();
    what_is_still_watched_chains();
}

/// No number of turns takes a row back.
pub fn turns_take_nothing_back<W: Wire>()
    ensures { (n : ℕ) (first last : WatchValue) (before after : W)
        → AreTurns W.Wire n first last before after → IsStillWatched first last }
{
    a_turn_takes_nothing_back::<W>();
    what_is_still_watched_chains();
}

/// Only a forged SHOW can mislead a watcher. Suppose that player 1's peer said each SHOW that the watcher heard, at any
/// time and in any order. Then the watcher's rows begin the rows that player 1 has confirmed in the end. This holds
/// whatever else the watcher hears, whatever is delivered to player 1, forged or not, and however often it restarts.
pub fn only_a_forged_show_misleads()
    ensures { (rules : Rules) (room seat : ℕ) (s : State) (deeds : List Deed)
        (answers : List (Option Reply)) (given : List (List ℕ))
        → AreInRange rules → room < 2 ^ 64 → IsRun rules room 1 never_opened deeds answers s
        → ShowsWereSaid answers given
        → Begins (after_hearing (first_watch rules room seat) given).rows
        (confirmed_rows (known_of rules 1 s.journal)) }
{
    a_peers_word_stands();
    what_is_shown_of_one_list_begins_it();
}
