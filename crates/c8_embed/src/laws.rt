//! What an engine can rely on, whatever its machine is. Each law is the contract of a function that does nothing.
ghost use Rattle.std.specs.Prelude.{ℕ, ◌≡◌, ◌+◌, ◌<◌, ◌≤◌, List, length, drop, Some};
ghost use Rattle.std.specs.List.{slice_get};
ghost use Rattle.c8_game.specs.declared.row.Row.{Row};
ghost use Rattle.c8_known.specs.Known.{KnownValue};
ghost use Rattle.c8_known.specs.Confirmed.{confirmed, rows_below, best_rows};
ghost use Rattle.c8_peer.specs.Peer.{PeerValue, IsAnswered, IsSound, known_by};
ghost use Rattle.c8_peer.specs.Lawful.{IsCall};
ghost use Rattle.c8_peer.specs.State.{Call, Reply};
ghost use Rattle.c8_session.specs.Runs.{HasRunOn};
ghost use Rattle.c8_embed.specs.Steps.{StepsValue, IsTrueTo, IsStepped, run, states, goes_back};

use c8_disk::Disk;
use c8_peer::laws::a_word_stands_from_any_journal;
use c8_session::laws::peers_run_on;

/// An engine with any machine (`S`, a start and a step) keeps its state at each frame. After a step it goes back to the
/// frame `from` and runs the rows that were given.
///
/// - `kept`: then its states are again those of all rows that it was given.
/// - `now`: after a step that gave all, the last one is the run of the best rows.
/// - `stays`: its state at each frame that is confirmed is the run of the confirmed rows, which never change.
/// - `same`: so it is equal to that of each other engine whose peer agrees about these rows.
/// - `back`: once a step has given rows of confirmed frames, the next step does not go back before the end of these. It then
///   gives them too, so this holds of all later steps.
/// - `window`: a peer ticks at most `window` frames beyond what is confirmed. So the state to which the next step goes back is
///   one of the last `window` + 1.
pub fn an_engine_has_the_run<S>()
    ensures kept { (step : S → Row → S) (start : S) (k : KnownValue) (most from count : ℕ)
        (before after : List Row)
        → IsStepped k most before after from count
        → goes_back step (states step start before) from (drop from after)
        ≡ states step start after }
    ensures now { (step : S → Row → S) (start : S) (k : KnownValue) (most from count : ℕ)
        (before after : List Row)
        → IsStepped k most before after from count → count < most
        → slice_get (states step start after) k.ticks ≡ Some (run step start (best_rows k)) }
    ensures stays { (step : S → Row → S) (start : S) (k : KnownValue) (most from count n : ℕ)
        (before after : List Row)
        → IsStepped k most before after from count → n ≤ confirmed k → n ≤ length after
        → slice_get (states step start after) n ≡ Some (run step start (rows_below k n)) }
    ensures same { (step : S → Row → S) (start : S) (k j : KnownValue)
        (most from count more since given n : ℕ) (before after earlier later : List Row)
        → IsStepped k most before after from count → IsStepped j more earlier later since given
        → n ≤ confirmed k → n ≤ length after → n ≤ confirmed j → n ≤ length later
        → rows_below k n ≡ rows_below j n
        → slice_get (states step start after) n ≡ slice_get (states step start later) n }
    ensures back { (k j : KnownValue) (most from count more since given n : ℕ)
        (before after later : List Row)
        → IsStepped k most before after from count → IsStepped j more after later since given
        → n ≤ confirmed k → n ≤ confirmed j → n ≤ length after
        → rows_below k n ≡ rows_below j n → n ≤ since }
    ensures window { (k j : KnownValue) (window most from count more since given : ℕ)
        (before after later : List Row)
        → IsStepped k most before after from count → IsStepped j more after later since given
        → k.ticks ≤ confirmed k + window → confirmed k ≤ confirmed j
        → rows_below k (confirmed k) ≡ rows_below j (confirmed k)
        → length after ≤ since + window }
{}

/// The rows that an engine was given as confirmed stay true, whatever call its peer makes (`call`), and however it runs on
/// (`ran`).
pub fn what_was_given_stays<D: Disk>()
    ensures call { (old new : PeerValue D) (call : Call) (reply : Reply) (s : StepsValue)
        → IsSound D.Disk old → IsCall call → IsAnswered D.Disk old call reply new
        → IsTrueTo (known_by old) s → IsTrueTo (known_by new) s }
    ensures ran { (old new : PeerValue D) (s : StepsValue)
        → IsSound D.Disk old → HasRunOn D.Disk old new
        → IsTrueTo (known_by old) s → IsTrueTo (known_by new) s }
{
    a_word_stands_from_any_journal::<D>();
    peers_run_on::<D>();
}
