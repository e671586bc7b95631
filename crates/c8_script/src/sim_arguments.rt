//! The options of the command `sim`.

use crate::sim_help::SIM_ENDING;
use c8_command::{Argument, Form, Outline};

/// The command `sim`.
pub static SIM: Outline = Outline {
    name: "sim",
    about: "Plays all players of a game here, as a script says, and prints the answers",
    ending: SIM_ENDING,
    takes: &[
        Argument {
            name: "GAME",
            help: "The path of the game's text",
            ..Argument::NEEDED
        },
        Argument {
            name: "SCRIPT",
            help: "The path of the script: one event a line",
            ..Argument::NEEDED
        },
        Argument {
            name: "journals",
            help: "Writes each player's journal to the folder DIR at the end, as journal1 and so on",
            form: Form::Option("DIR"),
            ..Argument::NEEDED
        },
        Argument::EXPLAIN,
    ],
};
