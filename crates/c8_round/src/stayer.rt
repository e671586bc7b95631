//! The part in a drop round of a player that stays.
ghost use Rattle.std.specs.Prelude.{◌≡◌};
ghost use Rattle.c8_known.specs.Known.{Plays};
ghost use Rattle.c8_round.specs.Round.{no_haves, with_have, answer_from};

use crate::chair::raised;
use c8_game::{MOST_PLAYERS, Player};
use c8_known::Known;
use std::marker::Model;

/// How many of each leaver's inputs player 1 said that it holds.
#[derive(Debug, Drop)]
pub struct Stayer {
    haves: [Option<u32>; MOST_PLAYERS],
}

impl Model for Stayer {
    ghost use Rattle.c8_round.specs.Round.{StayerValue};

    ghost Value = { StayerValue };

    ghost view = { λ v. record { haves = v.haves } };
}

impl Stayer {
    /// Makes the state before player 1 has said anything.
    pub fn new() -> Stayer
        ensures { result ≡ no_haves }
    {
        Stayer {
            haves: [None; MOST_PLAYERS],
        }
    }

    /// Notes that player 1 said that it holds `have` of a leaver's inputs. The greatest number counts.
    pub fn told(&mut self, leaver: Player, have: u32)
        ensures { self.new ≡ with_have self.old leaver.number have }
    {
        let known = &mut self.haves[leaver.place()];
        *known = Some(raised(*known, have));
    }

    /// Returns the start of the inputs in an answer to player 1: after those that it said it holds.
    pub fn from(&self, leaver: Player, known: &Known) -> u32
        requires { Plays known.now leaver.number }
        ensures { result ≡ answer_from self.now known.now leaver.number }
    {
        let told = match self.haves[leaver.place()] {
            Some(have) => have,
            None => u32::from(known.delay()),
        };
        told.min(known.count(leaver))
    }
}
