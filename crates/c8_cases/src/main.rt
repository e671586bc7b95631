//! The program that reads cases, tests that are text: each command is a public call of a peer or of a part. docs/TESTING.md
//! has the language.
//!
//! It reads the commands from standard input, does what they say, and writes the answers. `tools/calls` runs it for
//! `cases/calls`; that script has the form of a file, compares, and tries failures. `commands` reads the commands, `stage`
//! and `node` have the peers of a match and their disks, `calls` and `look` what a peer is asked, `slots` its journal, and
//! `watchers` the watchers. c8_part_cases has the commands of the parts.
#![tactic(auto)]

mod calls;
mod commands;
mod look;
mod node;
mod slots;
mod stage;
mod watchers;

use commands::run;
use std::io;
use std::io::Read;

fn main(rt: HostRuntime) -> io::Result<()> {
    let mut text = Vec::new(rt.alloc());
    rt.stdin().read_to_end(&mut text)?;
    run(rt.alloc(), &text, &mut rt.stdout())
}
