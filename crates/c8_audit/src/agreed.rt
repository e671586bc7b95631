//! Whether the players who were not dropped agree.

ghost use Rattle.std.specs.Prelude.{◌≡◌, ◌↔◌, true, option_map};
ghost use Rattle.c8_game.specs.Rules.{Rules};
ghost use Rattle.c8_audit.specs.Frames.{IsFirstDifferent};
ghost use Rattle.c8_audit.specs.Journals.{Seen, IsGiven, AreOfGame, is_dropped};
ghost use Rattle.c8_audit.specs.Read.{seen, all_seen};
ghost use Rattle.c8_audit.specs.Search.{IsStayer, IsFirstFrame};
ghost use Rattle.c8_audit.specs.Verdicts.{IsAhead};
ghost use Rattle.c8_audit.specs.declared.fault.Question.TheVariants as questions;

use crate::entered::cut_of;
use crate::journal::{Journal, journal_of};
use c8_game::Player;
use c8_known::Known;

/// Returns the first frame that both players count as confirmed with different inputs. `None` if there is no such
/// frame, if `one` is not the lower number, or if a player was dropped.
pub(crate) fn first_difference(
    journals: &[Option<Journal>],
    one: Player,
    other: Player,
) -> Option<u32>
    requires { (rules : Rules) × AreOfGame rules (all_seen journals.now) }
    ensures { IsFirstFrame questions.Agreed (all_seen journals.now) one.number other.number result }
{
    if other.number <= one.number {
        return None;
    }
    match (stayer(journals, one), stayer(journals, other)) {
        (Some(a), Some(b)) => first_different(&a.first, &b.first),
        _ => None,
    }
}

/// Returns the first frame that both players count as confirmed with different inputs. `None` also if one of their
/// journals has a cut that player 1's journal lacks.
pub(crate) fn first_opposed(journals: &[Option<Journal>], one: Player, other: Player) -> Option<u32>
    requires { (rules : Rules) × AreOfGame rules (all_seen journals.now) }
    ensures { IsFirstFrame questions.Opposed (all_seen journals.now) one.number other.number result }
{
    if is_ahead(journals, one) || is_ahead(journals, other) {
        return None;
    }
    first_difference(journals, one, other)
}

/// Returns whether the player's journal is given, and has a cut that player 1's journal lacks.
fn is_ahead(journals: &[Option<Journal>], player: Player) -> bool
    requires { (rules : Rules) × AreOfGame rules (all_seen journals.now) }
    ensures { (result ≡ true) ↔ ((s : Seen) × IsGiven (all_seen journals.now) player.number s
        × IsAhead (all_seen journals.now) s.first) }
{
    match journal_of(journals, player) {
        Some(journal) => has_more_cuts(journals, &journal.first),
        None => false,
    }
}

/// Returns whether something that is known has a cut that player 1's journal lacks.
fn has_more_cuts(journals: &[Option<Journal>], known: &Known) -> bool
    requires { (rules : Rules) × AreOfGame rules (all_seen journals.now) }
    ensures { (result ≡ true) ↔ IsAhead (all_seen journals.now) known.now }
{
    for number in 1..known.players() + 1 {
        let player = Player { number };
        if known.cut_of(player).is_some() && cut_of(journals, player).is_none() {
            return true;
        }
    }
    false
}

/// Returns the player's journal, if it is given and the player was not dropped.
pub(crate) fn stayer(journals: &[Option<Journal>], player: Player) -> Option<&Journal>
    requires { (rules : Rules) × AreOfGame rules (all_seen journals.now) }
    ensures { IsStayer (all_seen journals.now) player.number (option_map (λ journal. seen journal.now) result) }
{
    match journal_of(journals, player) {
        Some(journal) if !is_dropped(journals, player) => Some(journal),
        _ => None,
    }
}

/// Returns whether player 1 dropped the player, by the second reading of player 1's journal.
pub fn is_dropped(journals: &[Option<Journal>], player: Player) -> bool
    requires { (rules : Rules) × AreOfGame rules (all_seen journals.now) }
    ensures { result ≡ is_dropped (all_seen journals.now) player.number }
{
    match journal_of(journals, Player::CHAIR) {
        Some(one) if player.number <= one.later().players() => one.later().leaving(player),
        _ => false,
    }
}

/// Returns the first frame that both count as confirmed with different rows.
fn first_different(a: &Known, b: &Known) -> Option<u32>
    ensures { IsFirstDifferent a.now b.now result }
{
    let end = a.confirmed().min(b.confirmed());
    for frame in 0..end {
        if !a.row(frame).is_same(&b.row(frame)) {
            return Some(frame);
        }
    }
    None
}
