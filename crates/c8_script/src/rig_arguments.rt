//! The options of the command `rig`, and what they ask for.

use crate::rig_help::RIG_ENDING;
use c8_command::{Argument, Outline, is_explained, word_of};
use clap::ArgMatches;
use clap::builder::ValueParser;

/// What the command line of `rig` asks for.
#[derive(Clone, Copy)]
pub struct Asked<'a> {
    /// The path of the game's text.
    pub game: &'a str,
    pub seed: u64,
    /// How many turns each player makes.
    pub turns: u16,
    /// The path of the script to write, if any.
    pub script: Option<&'a str>,
    /// Whether to print each second how long the log is.
    pub progress: bool,
    /// Whether to print a second line that says where a refusal's fault is.
    pub explain: bool,
}

/// The command `rig`.
pub static RIG: Outline = Outline {
    name: "rig",
    about: "Plays all players of a game here, each in a thread of its own, and says whether they agree",
    ending: RIG_ENDING,
    takes: &[
        Argument {
            name: "GAME",
            help: "The path of the game's text",
            ..Argument::NEEDED
        },
        Argument {
            name: "SEED",
            help: "The seed of the players' turns, 0 to 18446744073709551615",
            value: Some(ValueParser::Unsigned(0, u64::MAX)),
            ..Argument::NEEDED
        },
        Argument {
            name: "TURNS",
            help: "How many turns each player makes, 0 to 10000",
            value: Some(ValueParser::Signed(0, 10_000)),
            ..Argument::NEEDED
        },
        Argument {
            name: "script",
            help: "Writes what happened as a script, which sim can play again",
            ..Argument::FILE
        },
        Argument {
            name: "progress",
            help: "Says each second, on standard error, how long the log is",
            ..Argument::FLAG
        },
        Argument::EXPLAIN,
    ],
};

/// Returns what a parsed command line asks for. The parser has checked that each argument is present and in range.
pub(crate) fn asked_of<'a>(given: &ArgMatches<'a>) -> Option<Asked<'a>> {
    Some(Asked {
        game: word_of(given, "GAME"),
        seed: given.get_one::<u64>("SEED")?,
        turns: given.get_one::<u16>("TURNS")?,
        script: given.get_str("script"),
        progress: given.get_flag("progress"),
        explain: is_explained(given),
    })
}
