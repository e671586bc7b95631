//! Player 1's part in a drop round.
ghost use Rattle.std.specs.Prelude.{◌≡◌, ◌||◌, not, length, Some};
ghost use Rattle.std.specs.List.{list_all, range_with_len};
ghost use Rattle.c8_known.specs.Known.{count_in, Plays};
ghost use Rattle.c8_round.specs.Round.{no_reports, report_of, with_report, has_answered, is_stayer, is_ready, owed, raised};

use c8_game::{MOST_PLAYERS, Player};
use c8_known::Known;
use std::marker::Model;

/// The answers of each player for each leaver: how many of the leaver's inputs the player holds.
#[derive(Debug, Drop)]
pub struct Chair {
    reports: [[Option<u32>; MOST_PLAYERS]; MOST_PLAYERS],
}

impl Model for Chair {
    ghost use Rattle.c8_round.specs.Round.{ChairValue};

    ghost Value = { ChairValue };

    ghost view = { λ c. record { reports = c.reports } };
}

impl Chair {
    /// Makes the state without answers.
    pub fn new() -> Chair
        ensures { result ≡ no_reports }
    {
        Chair {
            reports: [[None; MOST_PLAYERS]; MOST_PLAYERS],
        }
    }

    /// Takes a player's answer that it holds `held` of a leaver's inputs. The greatest answer counts.
    pub fn report(&mut self, stayer: Player, leaver: Player, held: u32)
        ensures { self.new ≡ with_report self.old leaver.number stayer.number held }
    {
        let answers = &mut self.reports[leaver.place()];
        let answer = &mut answers[stayer.place()];
        *answer = Some(raised(*answer, held));
    }

    /// Returns whether the leaver may be cut: player 1 has a LEAVE of it, and each other player without
    /// a LEAVE has answered with at most as many inputs as player 1 holds. The round waits for a player
    /// that has not answered.
    #[tactic(auto, unfolding(crate::specs::Round::is_ready))]
    pub fn ready(&self, leaver: Player, known: &Known) -> bool
        requires { Plays known.now leaver.number }
        ensures { result ≡ is_ready self.now known.now leaver.number }
    {
        known.leaving(leaver) && self.all_have_answered(leaver, known)
    }

    fn all_have_answered(&self, leaver: Player, known: &Known) -> bool
        requires { Plays known.now leaver.number }
        ensures { result ≡ list_all (λ q. not (is_stayer known.now q)
            || has_answered (count_in known.now leaver.number) (report_of self.now leaver.number q))
            (range_with_len 1 (length known.now.players)) }
    {
        for number in 1..known.players() + 1 {
            if !self.is_settled(Player { number }, leaver, known) {
                return false;
            }
        }
        true
    }

    /// Returns whether the round needs nothing more from a player.
    fn is_settled(&self, player: Player, leaver: Player, known: &Known) -> bool
        requires leaver { Plays known.now leaver.number }
        requires player { Plays known.now player.number }
        ensures { result ≡ (not (is_stayer known.now player.number)
            || has_answered (count_in known.now leaver.number)
            (report_of self.now leaver.number player.number)) }
    {
        if player.is_chair() || known.leaving(player) {
            return true;
        }
        match self.reports[leaver.place()][player.place()] {
            Some(held) => held <= known.count(leaver),
            None => false,
        }
    }

    /// Returns the start of the inputs in a CUT to a player: after those that it answered to hold.
    pub fn owed(&self, stayer: Player, leaver: Player, known: &Known) -> u32
        requires { Plays known.now leaver.number }
        ensures { result ≡ owed self.now known.now stayer.number leaver.number }
    {
        let answer = self.reports[leaver.place()][stayer.place()];
        let held = match answer {
            Some(held) => held,
            None => u32::from(known.delay()),
        };
        known.count(leaver).min(held)
    }
}

/// Returns the greater number, or `number` if there was none.
pub(crate) fn raised(before: Option<u32>, number: u32) -> u32
    ensures { raised before number ≡ Some result }
{
    match before {
        Some(before) => before.max(number),
        None => number,
    }
}
