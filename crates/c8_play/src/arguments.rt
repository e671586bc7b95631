//! The options of the command `play`, and what they ask for.

ghost use Rattle.std.specs.Prelude.{◌≡◌, true, false};
ghost use Rattle.c8_play.specs.Answers.{WantsReport, WantsNoReport};

use crate::desk::Tempo;
use crate::help::PLAY_ENDING;
use c8_command::{Argument, Form, Outline, Terminals, word_of};
use c8_game::Player;
use c8_net::options::{
    CHECKPOINT, GAME, LOCAL, PATIENCE, RELAY, REMOTES, ROOM, SECRET, STOP, WATCH_SECRET, WATCH5,
    WATCH6,
};
use clap::ArgMatches;
use clap::builder::ValueParser;

/// Who plays.
#[derive(Clone, Copy, Debug, PartialEq, Eq)]
pub(crate) enum Who {
    /// One person, with the keys of all players.
    Alone,
    /// A player of a match, with a journal and an address.
    Player(Player),
}

/// The option `--hold`.
pub const HOLD: Argument = Argument {
    name: "hold",
    help: "How many frames a stroke counts for if the terminal reports no releases",
    value: Some(ValueParser::Signed(1, 255)),
    default: Some("9"),
    ..Argument::NUMBER
};

/// The option `--mute`.
pub const MUTE: Argument = Argument {
    name: "mute",
    help: "Rings no bell when a tone begins",
    ..Argument::FLAG
};

/// The option `--report`.
pub const REPORT: Argument = Argument {
    name: "report",
    help: "Prints the machine's report at the end also on a terminal",
    ..Argument::FLAG
};

/// The command `play`.
pub static PLAY: Outline = Outline {
    name: "play",
    about: "Plays a game at the keyboard, alone or with others over UDP",
    ending: PLAY_ENDING,
    takes: &[
        GAME,
        Argument {
            name: "PLAYER",
            help: "The number of the own player, 1 to 4, or alone; with --player it is left out",
            form: Form::Optional,
            ..Argument::NEEDED
        },
        Argument {
            name: "JOURNAL",
            help: "The path of the own journal, created if it is missing; - for none",
            form: Form::Optional,
            ..Argument::NEEDED
        },
        LOCAL,
        REMOTES,
        Argument {
            name: "player",
            help: "With a match card for GAME and no other word: the number of the own player, 2 to 4, as in join",
            value: Some(ValueParser::Signed(2, 4)),
            ..Argument::NUMBER
        },
        RELAY,
        ROOM,
        Argument {
            name: "turns",
            help: "Ends after N turns, one a frame [default: no end]",
            ..Argument::NUMBER
        },
        PATIENCE,
        STOP,
        CHECKPOINT,
        WATCH5,
        WATCH6,
        SECRET,
        WATCH_SECRET,
        Argument {
            name: "progress",
            help: "Says at the end, on standard error, how late frames were, and which packets were dropped",
            ..Argument::FLAG
        },
        Argument::EXPLAIN,
        Argument {
            name: "rate",
            help: "How many frames a second, 1 to 120",
            value: Some(ValueParser::Signed(1, 120)),
            default: Some("60"),
            ..Argument::NUMBER
        },
        HOLD,
        MUTE,
        REPORT,
    ],
};

/// Who plays, or `None` if the arguments do not fit: with `alone` there is no journal, and a player has a journal, and
/// an address or a relay.
pub(crate) fn who_of(given: &ArgMatches<'_>) -> Option<Who> {
    let has_way = given.get_str("LOCAL").is_some() || given.get_str("relay").is_some();
    let has_match = given.get_str("JOURNAL").is_some() && has_way;
    let has_none = given.get_str("JOURNAL").is_none();
    match word_of(given, "PLAYER") {
        "alone" if has_none => Some(Who::Alone),
        "1" if has_match => Some(Who::Player(Player::CHAIR)),
        "2" if has_match => Some(Who::Player(Player { number: 2 })),
        "3" if has_match => Some(Who::Player(Player { number: 3 })),
        "4" if has_match => Some(Who::Player(Player { number: 4 })),
        _ => None,
    }
}

/// Whether the report is printed: with `--report`, or where standard output is no terminal.
pub fn wants_report(given: &ArgMatches<'_>, terminals: Terminals) -> bool
    ensures wants { WantsReport given.now terminals → result ≡ true }
    ensures none { WantsNoReport given.now terminals → result ≡ false }
{
    given.get_flag("report") || !terminals.output
}

/// How fast the game goes; the parser has checked the ranges.
pub(crate) fn pace_of(given: &ArgMatches<'_>) -> Tempo {
    Tempo {
        rate: given.get_one::<u8>("rate").unwrap_or(60).max(1),
        hold: given.get_one::<u8>("hold").unwrap_or(9).max(1),
    }
}
