//! Key sets, players, and rows: one key set for each player.
ghost use Rattle.std.specs.Prelude.{◌≡◌, ◌≤◌, ◌<◌, ◌+◌, ◌-◌, ◌==◌, ◌⊎◌, ◌↔◌, true, false, MatchOption, IfOk, IfErr, IfNone, IfSome};

use crate::bounds::MOST_PLAYERS;
use std::fmt;
use thiserror::Error;

/// A set of the sixteen keys: it has key `k` exactly if bit `k` is 1.
#[derive(Clone, Copy, Debug, Default, PartialEq, Eq, Hash)]
pub struct Keys(pub u16);

impl Keys {
    ghost use Rattle.c8_game.specs.KeysText.{is_keys_text, keys_number};

    /// Reads a set from four hexadecimal digits of either case, the most significant first. None for any other text.
    pub fn from_hex(text: &[u8]) -> Option<Self>
        ensures { MatchOption result (is_keys_text text.now ≡ false)
            (λ keys. (is_keys_text text.now ≡ true) × (keys.0 ≡ keys_number text.now)) }
    {
        let mut bytes = [0; 2];
        match hex::decode_to_slice(text, &mut bytes) {
            Ok(()) => Some(Keys(u16::from_be_bytes(bytes))),
            Err(_) => None,
        }
    }
}

/// Writes four hexadecimal digits in lower case, as in a game text.
impl fmt::Display for Keys {
    fn fmt<W: fmt::Write>(&self, f: &mut fmt::Formatter<W>) -> fmt::Result {
        write!(f, "{:04x}", self.0)
    }
}

/// One of the players 1 to 4, ordered by number.
#[derive(Clone, Copy, Debug, PartialEq, Eq, PartialOrd, Ord, Hash)]
pub struct Player {
    pub number: u8,
    pub ghost from_one: { 1 ≤ number },
    pub ghost to_four: { number ≤ 4 },
}

impl Player {
    /// Player 1, the only one who can drop a player.
    pub const CHAIR: Player = Player { number: 1 };

    /// Makes the player with this number. None unless it is 1 to 4.
    pub fn new(number: u8) -> Option<Self>
        ensures some { IfSome result (λ player. player.number ≡ number) }
        ensures none { IfNone result ((number < 1) ⊎ (4 < number)) }
    {
        if number >= 1 && number <= 4 {
            Some(Player { number })
        } else {
            None
        }
    }

    /// Returns the player's place in a list of all players; player 1 has place 0.
    pub fn place(self) -> usize
        ensures value { result ≡ self.number - 1 }
        ensures next { result + 1 ≡ self.number }
        ensures below { result < MOST_PLAYERS }
    {
        usize::from(self.number - 1)
    }

    /// Returns whether this is player 1, the only one who can drop a player.
    pub fn is_chair(self) -> bool
        ensures { result ≡ (self.number == 1) }
    {
        self.number == 1
    }
}

/// The error of a number that is not a player's.
#[derive(Clone, Copy, Debug, PartialEq, Eq, Error)]
#[error("a player's number is 1 to 4")]
pub struct NoPlayer;

impl TryFrom<u8> for Player {
    type Error = NoPlayer;

    ghost try_from_gives = { λ number result. IfOk result (λ player. player.number ≡ number)
        × IfErr result (λ _. (number < 1) ⊎ (4 < number)) };

    fn try_from(number: u8) -> Result<Player, NoPlayer> {
        match Player::new(number) {
            Some(player) => Ok(player),
            None => Err(NoPlayer),
        }
    }
}

impl From<Player> for u8 {
    ghost from_gives = { λ player number. number ≡ player.number };

    fn from(player: Player) -> u8 {
        player.number
    }
}

/// Writes the player's number.
impl fmt::Display for Player {
    fn fmt<W: fmt::Write>(&self, f: &mut fmt::Formatter<W>) -> fmt::Result {
        write!(f, "{}", self.number)
    }
}

/// The key sets of four players for one frame, as entered. Player 1's comes first.
#[derive(Clone, Copy, Debug, Default, PartialEq, Eq, Hash)]
pub struct Row {
    pub sets: [Keys; MOST_PLAYERS],
}

impl Row {
    /// Returns whether both rows hold the same sets: `==`, with a contract.
    pub fn is_same(&self, other: &Row) -> bool
        ensures { (result ≡ true) ↔ (self.now ≡ other.now) }
    {
        self == other
    }
}
