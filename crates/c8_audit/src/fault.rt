//! The answers of an audit, and the faults that it finds in pairs of journals.

use c8_game::Player;

/// What an audit checks of two players in a frame.
#[derive(Clone, Copy, Debug, PartialEq, Eq)]
pub enum Question {
    /// Whether the first player entered the input that the second player's journal counts as confirmed.
    Entered,
    /// Whether both have the same inputs; asked only of players who were not dropped.
    Agreed,
    /// Whether the first player's own journal has another input than the second player's journal counts as confirmed.
    Accused,
    /// Whether both have different inputs, although player 1's journal has each cut that theirs have.
    Opposed,
}

/// Where the answer is no.
#[derive(Clone, Copy, Debug, PartialEq, Eq)]
pub struct Fault {
    pub frame: u32,
    /// The player who did not enter the input, or the first of two players who differ.
    pub one: Player,
    /// The player whose journal counts that input as confirmed, or the second of two players who differ.
    pub other: Player,
}

/// A journal that ends before what others hold of its player.
#[derive(Clone, Copy, Debug, PartialEq, Eq)]
pub struct Short {
    pub player: Player,
    /// How many inputs of the player its own journal has, by the second reading.
    pub length: u32,
}

/// The answer to a question.
#[derive(Clone, Copy, Debug, PartialEq, Eq)]
pub enum Answer {
    Yes,
    /// Nobody is accused, but a journal ends too early for a yes.
    Short(Short),
    /// The least fault. It does not come from a journal that ends too early.
    No(Fault),
}
