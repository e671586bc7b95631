//! c8peer: the commands `peer`, `play`, `host`, `join`, `watch`, `secret` and `game` of c8play in a program of their own, which
//! takes less time to prove and build. The script `c8play` starts it for these commands.
#![tactic(auto)]

use c8_command::{Status, Terminals, Threaded, Unhurried, line_of, status_at, tell, words_in};
use c8_host::{match_commands, match_given};
use std::env::Args;
use std::io::{IsTerminal, Read, Write};
use std::process::ExitCode;
use std::{env, io};

fn main(rt: HostRuntime) -> ExitCode {
    let args = env::args(&rt);
    let (input, mut out) = (rt.reader(), rt.stdout());
    let terminals = Terminals {
        input: input.is_terminal(),
        output: out.is_terminal(),
    };
    let explains = rt.stderr().is_terminal();
    let mut refused = Unhurried { out: rt.stderr() };
    let ended = obey(
        &rt,
        args,
        input,
        &mut out,
        terminals,
        explains,
        &mut refused,
    );
    status_at(ended, &mut refused).into()
}

/// Does what the arguments ask for. `explains`: whether refusals are explained where they do not say it. The error is a
/// writer's, or that memory ran out.
fn obey<R, I, W: Write, E: Write + Send>(
    rt: &R,
    args: io::Result<Args>,
    input: I,
    out: &mut W,
    terminals: Terminals,
    explains: bool,
    refused: &mut E,
) -> io::Result<Status>
where
    R: Threaded,
    I: Read + Drop,
{
    let alloc = rt.alloc();
    let Some(words) = words_in(alloc, args, refused)? else {
        return Ok(Status::CommandLine);
    };
    let command = line_of(alloc, &match_commands(), explains)?;
    match command.try_get_matches_from(words.as_slice()) {
        Ok(matches) => match matches.subcommand() {
            Some((name, given)) => {
                let ended = match_given(rt, name, given, input, terminals, out, refused)?;
                Ok(ended.unwrap_or(Status::CommandLine))
            }
            None => Ok(Status::CommandLine),
        },
        Err(error) => tell(alloc, &error, out, refused),
    }
}
