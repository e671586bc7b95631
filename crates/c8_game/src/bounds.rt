//! Limits that hold for every game.

/// The most players of a game.
pub const MOST_PLAYERS: usize = 4;

/// The most bytes of a program.
pub const MOST_PROGRAM: usize = 3584;

/// The most frames of a game.
pub const MOST_FRAMES: u32 = 262_144;

/// The greatest length of a player's list of inputs: the most frames plus the longest delay.
pub const MOST_INPUTS: u32 = 262_148;
