//! The commands that the programs c8peer and c8play have in common, as one table: `peer`, `play`, `host`, `join`, `watch`,
//! `secret` and `game`.

use crate::arguments::{HOST, JOIN};
use crate::host::host_given;
use crate::join::{join_given, play_by_card};
use c8_command::{Outline, Status, Terminals, Threaded};
use c8_files::{GAME, SECRET, game_given, secret_given};
use c8_net::{PEER, peer_given};
use c8_play::{PLAY, play_given};
use c8_watch::{WATCH, watch_given};
use clap::ArgMatches;
use std::io;
use std::io::{Read, Write};

/// Returns what each command takes, in the order of the help.
pub fn match_commands() -> [&'static Outline; 7] {
    [&PEER, &PLAY, &HOST, &JOIN, &WATCH, &SECRET, &GAME]
}

/// Runs the command with this name; `None` if it is none of these commands. `input` is standard input. Output goes to `out`,
/// and refusals to `refused`. The error is a writer's, or that memory ran out.
pub fn match_given<R, I, W: Write, E: Write + Send>(
    rt: &R,
    name: &str,
    given: &ArgMatches<'_>,
    input: I,
    terminals: Terminals,
    out: &mut W,
    refused: &mut E,
) -> io::Result<Option<Status>>
where
    R: Threaded,
    I: Read + Drop,
{
    let ended = match name {
        "peer" => peer_given(rt, given, input, terminals, out, refused),
        "play" if given.contains_id("player") => {
            play_by_card(rt, given, input, terminals, out, refused)
        }
        "play" => play_given(rt, given, terminals, out, refused),
        "host" => host_given(rt, given, terminals, out, refused),
        "join" => join_given(rt, given, input, terminals, out, refused),
        "watch" => watch_given(rt, given, terminals, out, refused),
        "secret" => secret_given(rt, out, refused),
        "game" => game_given(rt, given, out, refused),
        _ => return Ok(None),
    };
    Ok(Some(ended?))
}
