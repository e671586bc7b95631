//! The whole audit.

ghost use Rattle.std.specs.Prelude.{◌≡◌, ◌⊎◌, MatchOption};
ghost use Rattle.c8_game.specs.Rules.{Rules};
ghost use Rattle.c8_audit.specs.Journals.{Seen, IsGiven, AreOfGame, Stays};
ghost use Rattle.c8_audit.specs.Read.{all_seen};
ghost use Rattle.c8_audit.specs.Verdicts.{IsFirstUnentered, IsDifference, AreTrue, IsFirstUntrue, IsLeastCount, LacksCut, HasLength, AnswersEntered, AnswersAgreed};

use crate::count::least_count;
use crate::entered::cut_of;
use crate::fault::{Answer, Fault, Question, Short};
use crate::journal::{Journal, journal_of};
use crate::search::least_fault;
use crate::truth::first_untrue;
use c8_game::{Game, Player};

/// The verdicts of an audit.
#[derive(Clone, Copy, Debug, PartialEq, Eq)]
pub struct Verdicts {
    /// Whether each input that a journal counts as confirmed was entered by its player. A no is the first one that the
    /// player's own journal has otherwise. Inputs are ordered by frame, then by player, then by the journal's player.
    pub entered: Answer,
    /// The first player whose journal's last checkpoint is not true.
    pub untrue: Option<Player>,
    /// Whether undropped players agree. A no is the first difference between two players, ordered by frame and then by
    /// the two players. `one` has the lower number.
    pub agree: Answer,
    /// How many frames every undropped player has confirmed.
    pub count: u32,
}

/// Judges the journals of a match, player 1's among them.
pub fn judge(game: &Game, journals: &[Option<Journal>]) -> Verdicts
    requires of_game { AreOfGame game.now (all_seen journals.now) }
    requires one { (one : Seen) × Stays (all_seen journals.now) 1 one }
    ensures entered { AnswersEntered (all_seen journals.now) result.entered }
    ensures checks { MatchOption result.untrue (AreTrue game.now (all_seen journals.now))
        (λ player. IsFirstUntrue game.now (all_seen journals.now) player.number) }
    ensures agree { AnswersAgreed game.now (all_seen journals.now) result.agree }
    ensures count { IsLeastCount (all_seen journals.now) result.count }
{
    Verdicts {
        entered: entered(journals),
        untrue: first_untrue(game, journals),
        agree: agree(journals),
        count: least_count(journals),
    }
}

/// Answers whether the confirmed inputs were entered.
fn entered(journals: &[Option<Journal>]) -> Answer
    requires of_game { (rules : Rules) × AreOfGame rules (all_seen journals.now) }
    requires one { (one : Seen) × Stays (all_seen journals.now) 1 one }
    ensures { AnswersEntered (all_seen journals.now) result }
{
    match least_fault(Question::Entered, journals) {
        Some(first) => accused(journals, first),
        None => Answer::Yes,
    }
}

/// Answers whether anyone is accused, if `first` is the first input that was not entered.
fn accused(journals: &[Option<Journal>], first: Fault) -> Answer
    requires of_game { (rules : Rules) × AreOfGame rules (all_seen journals.now) }
    requires one { (one : Seen) × Stays (all_seen journals.now) 1 one }
    requires first { IsFirstUnentered (all_seen journals.now) first.frame first.one.number first.other.number }
    ensures { AnswersEntered (all_seen journals.now) result }
{
    match least_fault(Question::Accused, journals) {
        Some(fault) => Answer::No(fault),
        None => Answer::Short(short_of(journals, end_of(journals, first))),
    }
}

/// Answers whether undropped players agree.
fn agree(journals: &[Option<Journal>]) -> Answer
    requires of_game { (rules : Rules) × AreOfGame rules (all_seen journals.now) }
    requires one { (one : Seen) × Stays (all_seen journals.now) 1 one }
    ensures { (rules : Rules) → AnswersAgreed rules (all_seen journals.now) result }
{
    match least_fault(Question::Agreed, journals) {
        Some(first) => opposed(journals, first),
        None => Answer::Yes,
    }
}

/// Answers whether anyone is accused of a difference, if `first` is one.
fn opposed(journals: &[Option<Journal>], first: Fault) -> Answer
    requires of_game { (rules : Rules) × AreOfGame rules (all_seen journals.now) }
    requires one { (one : Seen) × Stays (all_seen journals.now) 1 one }
    requires first { IsDifference (all_seen journals.now) first.frame first.one.number first.other.number }
    ensures { (rules : Rules) → AnswersAgreed rules (all_seen journals.now) result }
{
    match least_fault(Question::Opposed, journals) {
        Some(fault) => Answer::No(fault),
        None => Answer::Short(short_of(journals, Player::CHAIR)),
    }
}

/// Returns the player whose journal ends too early for an input that was not entered: player 1 if its journal lacks the
/// cut by which the input is empty, else the input's player.
fn end_of(journals: &[Option<Journal>], first: Fault) -> Player
    requires of_game { (rules : Rules) × AreOfGame rules (all_seen journals.now) }
    requires by { (by : Seen) × IsGiven (all_seen journals.now) first.other.number by }
    requires own { (own : Seen) × IsGiven (all_seen journals.now) first.one.number own }
    ensures { (by : Seen) → IsGiven (all_seen journals.now) first.other.number by
        → (LacksCut (all_seen journals.now) by first.one.number first.frame × (result.number ≡ 1))
        ⊎ ((LacksCut (all_seen journals.now) by first.one.number first.frame → ⊥) × (result ≡ first.one)) }
{
    let Some(by) = journal_of(journals, first.other) else {
        unreachable!();
    };
    if by.first.count(first.one) <= first.frame && cut_of(journals, first.one).is_none() {
        return Player::CHAIR;
    }
    first.one
}

/// Returns the length of a player's list in its own journal.
fn short_of(journals: &[Option<Journal>], player: Player) -> Short
    requires of_game { (rules : Rules) × AreOfGame rules (all_seen journals.now) }
    requires given { (own : Seen) × IsGiven (all_seen journals.now) player.number own }
    ensures player { result.player ≡ player }
    ensures length { HasLength (all_seen journals.now) player.number result.length }
{
    let Some(own) = journal_of(journals, player) else {
        unreachable!();
    };
    Short {
        player,
        length: own.later().count(player),
    }
}
