//! The arguments of the commands `audit` and `journal`.

use crate::help::{AUDIT_ENDING, JOURNAL_ENDING};
use c8_command::{Argument, Form, Outline};

/// The name of the option for JSON.
pub(crate) const JSON: &str = "json";

/// The name of the option for the folder of many matches.
pub(crate) const MATCHES: &str = "matches";

/// The most journals of a match: one of each of four players.
pub(crate) const MOST_JOURNALS: usize = 4;

/// The most files of the command `journal`.
const MOST_FILES: usize = 64;

/// The command `audit`.
pub static AUDIT: Outline = Outline {
    name: "audit",
    about: "Judges the journals of a match: whether they tell one story",
    ending: AUDIT_ENDING,
    takes: &[
        Argument {
            name: "GAME",
            help: "The path of the game's text or of a CHIP-8 program (.ch8)",
            ..Argument::NEEDED
        },
        Argument {
            name: "JOURNAL",
            help: "The paths of the journals, one to four, player 1's among them; they are only read",
            form: Form::Words(1, MOST_JOURNALS),
            ..Argument::NEEDED
        },
        Argument {
            name: JSON,
            help: "Prints one line of JSON instead: an object with the lines as its fields",
            ..Argument::FLAG
        },
        Argument {
            name: MATCHES,
            help: "Judges the match in each folder of this one instead, and prints a line of JSON for each",
            form: Form::Option("FOLDER"),
            excludes: &["GAME", "JOURNAL"],
            ..Argument::NEEDED
        },
        Argument::EXPLAIN,
    ],
};

/// The command `journal`.
pub static JOURNAL: Outline = Outline {
    name: "journal",
    about: "Says what journals are: their players, rooms and games",
    ending: JOURNAL_ENDING,
    takes: &[
        Argument {
            name: "FILE",
            help: "The paths of the journals, at most 64; they are only read",
            form: Form::Words(1, MOST_FILES),
            ..Argument::NEEDED
        },
        Argument::EXPLAIN,
    ],
};
