//! c8play: two to four people play CHIP-8 programs together over UDP.
//!
//! `commands` has the whole command line: the table of c8_host, and `run`, `relay`, `replay`, `audit`, `journal`, `sim`, `rig` and `show`. A
//! command and its options are in the crate that runs it, but the options of `run` and `show` in c8_command.
#![tactic(auto)]

mod commands;
mod help;

use c8_command::{Terminals, Unhurried};
use commands::answer;
use std::env;
use std::io::IsTerminal;
use std::process::ExitCode;

fn main(rt: HostRuntime) -> ExitCode {
    let args = env::args(&rt);
    let (input, mut out) = (rt.reader(), rt.stdout());
    let terminals = Terminals {
        input: input.is_terminal(),
        output: out.is_terminal(),
    };
    let explains = rt.stderr().is_terminal();
    answer(
        &rt,
        args,
        input,
        &mut out,
        terminals,
        explains,
        &mut Unhurried { out: rt.stderr() },
    )
    .into()
}
