//! c8run: the commands `run` and `show` of c8play in a program of their own, which takes less time to prove and build.
//! The script `c8play` starts it for these commands.
#![tactic(auto)]

use c8_command::{RUN, SHOW, Status, is_explained, line_of, status_at, tell, word_of, words_in};
use c8_texts::{run_files, show};
use std::io::{IsTerminal, Write};
use std::process::ExitCode;
use std::{env, io};

fn main(rt: HostRuntime) -> ExitCode {
    let ended = obey(&rt, &mut rt.stdout(), &mut rt.stderr());
    status_at(ended, &mut rt.stderr()).into()
}

/// Does what the arguments ask for. The error is a writer's, or that memory ran out.
fn obey<W: Write, E: Write>(rt: &HostRuntime, out: &mut W, refused: &mut E) -> io::Result<Status> {
    let alloc = rt.alloc();
    let Some(words) = words_in(alloc, env::args(rt), refused)? else {
        return Ok(Status::CommandLine);
    };
    let command = line_of(alloc, &[&RUN, &SHOW], rt.stderr().is_terminal())?;
    match command.try_get_matches_from(words.as_slice()) {
        Ok(matches) => match matches.subcommand() {
            Some(("run", given)) => {
                let (game, keys) = (word_of(given, "GAME"), word_of(given, "KEYS"));
                run_files(rt, game, keys, is_explained(given), out, refused)
            }
            Some(("show", given)) => {
                let word = word_of(given, "HEX");
                show(alloc, word, is_explained(given), out, refused)
            }
            _ => Ok(Status::CommandLine),
        },
        Err(error) => tell(alloc, &error, out, refused),
    }
}
