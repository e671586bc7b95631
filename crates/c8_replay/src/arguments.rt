//! The options of the command `replay`, and what they ask for.

use crate::help::REPLAY_ENDING;
use c8_command::{Argument, Outline, is_explained, word_of};
use clap::ArgMatches;
use clap::builder::ValueParser;

/// What `replay` shows of a journal.
#[derive(Clone, Copy, Debug, PartialEq, Eq)]
pub struct Wish {
    /// The room that the journal must have; `None` for any.
    pub room: Option<u64>,
    /// How many confirmed rows are shown; `None` for all.
    pub to: Option<u64>,
    pub form: Form,
    /// Whether the report, or a refusal, is one object of JSON.
    pub json: bool,
}

/// The form in which `replay` shows rows.
#[derive(Clone, Copy, Debug, PartialEq, Eq)]
pub enum Form {
    /// The machine after them.
    Report,
    /// As key lines.
    Keys,
    /// A page for a browser, and the machine after them.
    Page,
}

/// What the command line of `replay` asks for.
#[derive(Clone, Copy)]
pub struct Asked<'a> {
    /// The path of the game's text or of a program.
    pub game: &'a str,
    /// The path of the journal.
    pub journal: &'a str,
    pub wish: Wish,
    /// The path of the page to write, if any.
    pub page: Option<&'a str>,
    /// With `--screen` the frames a second at which the terminal shows the match.
    pub screen: Option<u8>,
    /// Whether to print a second line that says where a refusal's fault is.
    pub explain: bool,
}

/// The command `replay`.
pub static REPLAY: Outline = Outline {
    name: "replay",
    about: "Shows the match that a player's journal confirms: prints the machine after it",
    ending: REPLAY_ENDING,
    takes: &[
        Argument {
            name: "GAME",
            help: "The path of the game's text or of a CHIP-8 program (.ch8)",
            ..Argument::NEEDED
        },
        Argument {
            name: "JOURNAL",
            help: "The path of the journal, of any player; it is only read",
            ..Argument::NEEDED
        },
        Argument {
            name: "room",
            help: "Refuses a journal of another room [default: takes any]",
            ..Argument::NUMBER
        },
        Argument {
            name: "to",
            help: "Stops after N confirmed frames [default: all]",
            ..Argument::NUMBER
        },
        Argument {
            name: "keys",
            help: "Prints the confirmed key sets as key lines for the command run, not the machine",
            ..Argument::FLAG
        },
        Argument {
            name: "json",
            help: "Prints one line of JSON instead: an object with the report's lines as its fields",
            excludes: &["keys"],
            ..Argument::FLAG
        },
        Argument {
            name: "page",
            help: "Also writes one HTML page that shows the match in a browser",
            excludes: &["keys"],
            ..Argument::FILE
        },
        Argument {
            name: "screen",
            help: "Shows the match in the terminal first",
            excludes: &["keys", "page"],
            ..Argument::FLAG
        },
        Argument {
            name: "rate",
            help: "With --screen: how many frames a second, 1 to 120",
            value: Some(ValueParser::Signed(1, 120)),
            default: Some("60"),
            ..Argument::NUMBER
        },
        Argument::EXPLAIN,
    ],
};

/// Returns what a parsed command line asks for.
pub(crate) fn asked_of<'a>(given: &ArgMatches<'a>) -> Asked<'a> {
    let page = given.get_str("page");
    let form = match page {
        Some(_) => Form::Page,
        None if given.get_flag("keys") => Form::Keys,
        None => Form::Report,
    };
    Asked {
        game: word_of(given, "GAME"),
        journal: word_of(given, "JOURNAL"),
        wish: Wish {
            room: given.get_one::<u64>("room"),
            to: given.get_one::<u64>("to"),
            form,
            json: given.get_flag("json"),
        },
        page,
        screen: match given.get_flag("screen") {
            true => given.get_one::<u8>("rate"),
            false => None,
        },
        explain: is_explained(given),
    }
}
