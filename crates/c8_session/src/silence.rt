//! How long each player has been silent.

use c8_game::{MOST_PLAYERS, Player};

/// What counts as a sign of life of a player.
#[derive(Clone, Copy, Debug, Default, PartialEq, Eq, Hash)]
pub enum Life {
    /// A datagram that an open link admitted and nothing refused. A HELLO is no such sign: who has lost its journal says
    /// HELLO for ever, and can do no more.
    #[default]
    OpenLink,
    /// Any datagram that the links admitted, HELLO too, whatever came after that: the rule of `peer`.
    Admitted,
}

/// For each player, how many turns have begun since its last sign of life, or since the start.
#[derive(Clone, Copy, Debug, PartialEq, Eq)]
pub struct Silence {
    turns: [u64; MOST_PLAYERS],
}

impl Silence {
    /// Before the first turn.
    pub fn new() -> Silence {
        Silence {
            turns: [0; MOST_PLAYERS],
        }
    }

    /// Counts a turn that begins.
    pub fn begin(&mut self) {
        let [one, two, three, four] = self.turns;
        self.turns = [
            one.saturating_add(1),
            two.saturating_add(1),
            three.saturating_add(1),
            four.saturating_add(1),
        ];
    }

    /// Resets a player that gave a sign of life.
    pub fn heard(&mut self, player: Player) {
        self.turns[player.place()] = 0;
    }

    /// How many turns the player has been silent, the current one included.
    pub fn turns(&self, player: Player) -> u64 {
        self.turns[player.place()]
    }
}
