//! Searches for the least fault of all players.

ghost use Rattle.std.specs.Prelude.{◌≡◌};
ghost use Rattle.c8_game.specs.Rules.{Rules};
ghost use Rattle.c8_audit.specs.Journals.{AreOfGame};
ghost use Rattle.c8_audit.specs.Read.{all_seen};
ghost use Rattle.c8_audit.specs.Search.{IsFirstOf, IsLeastOf, IsLeast, earlier_of};

use crate::agreed::{first_difference, first_opposed};
use crate::entered::{first_accused, first_unentered};
use crate::fault::{Fault, Question};
use crate::journal::Journal;
use c8_game::Player;

/// One more than the highest player number.
pub const PLAYERS_END: u8 = 5;

/// Returns the least fault: faults are ordered by frame, then by `one`, then by `other`.
pub(crate) fn least_fault(question: Question, journals: &[Option<Journal>]) -> Option<Fault>
    requires { (rules : Rules) × AreOfGame rules (all_seen journals.now) }
    ensures { IsLeast question (all_seen journals.now) result }
{
    let mut least = None;
    for number in 1..PLAYERS_END {
        least = earlier(least, least_of(question, journals, Player { number }));
    }
    least
}

/// Returns the least fault of one player, ordered by frame and then by the other player.
fn least_of(question: Question, journals: &[Option<Journal>], one: Player) -> Option<Fault>
    requires { (rules : Rules) × AreOfGame rules (all_seen journals.now) }
    ensures { IsLeastOf question (all_seen journals.now) one.number PLAYERS_END result }
{
    let mut least = None;
    for number in 1..PLAYERS_END {
        least = earlier(
            least,
            first_fault(question, journals, one, Player { number }),
        );
    }
    least
}

/// Returns the first fault of two players.
fn first_fault(
    question: Question,
    journals: &[Option<Journal>],
    one: Player,
    other: Player,
) -> Option<Fault>
    requires { (rules : Rules) × AreOfGame rules (all_seen journals.now) }
    ensures { IsFirstOf question (all_seen journals.now) one.number other.number result }
{
    let frame = match question {
        Question::Entered => first_unentered(journals, one, other)?,
        Question::Agreed => first_difference(journals, one, other)?,
        Question::Accused => first_accused(journals, one, other)?,
        Question::Opposed => first_opposed(journals, one, other)?,
    };
    Some(Fault { frame, one, other })
}

/// Returns the earlier of two faults; of two in the same frame the first.
fn earlier(least: Option<Fault>, found: Option<Fault>) -> Option<Fault>
    ensures { result ≡ earlier_of least found }
{
    match (least, found) {
        (None, found) => found,
        (least, None) => least,
        (Some(least), Some(found)) if least.frame <= found.frame => Some(least),
        (Some(_), found) => found,
    }
}
