//! What the command refuses, and what it prints then.
use c8_command::{Refusal, Text};
use c8_game::GameError;
use c8_script::{Asked, RigError, rig};
use std::io;
use std::io::Write;
use std::sync::Wait;
use std::thread::Threads;
use std::time::Clock;

/// The command line, without `--explain`.
pub(crate) const ASKED: Asked<'static> = Asked {
    game: "a.game",
    seed: 1,
    turns: 20,
    script: None,
    progress: false,
    explain: false,
};

pub(crate) const GAME: &str =
    "players 2\nipf 10\nframes 60\ndelay 0\nwindow 8\nseed 0\nmask1 ffff\nmask2 ffff\ncode 1200\n";

static ERRORS: [RigError; 4] = [
    RigError::Game(GameError::Line),
    RigError::Game(GameError::Memory),
    RigError::Memory,
    RigError::Script,
];

fn errors() -> &'static [RigError] {
    &ERRORS
}

/// Each error: the line of its refusal, the status, and its sentence.
const TOLD: &str = "refused: game 1 Line
1: a line that is no name, space and value
refused: game 6 Memory
1: out of memory
refused: open 5 Memory
1: out of memory
refused: disk 1 Failed
3: a file that cannot be written
";

fn tell_errors(out: &mut Vec<u8>) -> io::Result<()> {
    for error in errors() {
        let status = Refusal::from(*error).tell(out)?;
        writeln!(out, "{}: {error}", status.code())?;
    }
    Ok(())
}

#[test]
fn each_error_has_its_line_and_status(rt: HostRuntime) {
    let mut told = Vec::new(rt.alloc());
    assert!(rt; tell_errors(&mut told).is_ok() && told.as_slice() == TOLD.as_bytes());
}

/// A script that takes nothing.
#[derive(Drop)]
struct Full;

impl Write for Full {
    fn write(&mut self, _: &[u8]) -> io::Result<usize> {
        Err(io::ErrorKind::StorageFull.into())
    }

    fn flush(&mut self) -> io::Result<()> {
        Ok(())
    }
}

const REFUSED: &str = "refused: disk 1 Failed\na.script: a file that cannot be written\n";

#[test]
fn a_script_that_cannot_be_written_is_refused(rt: HostRuntime) {
    let (mut out, mut refused) = (Vec::new(rt.alloc()), Vec::new(rt.alloc()));
    let asked = Asked {
        script: Some("a.script"),
        explain: true,
        ..ASKED
    };
    let game = Text {
        file: "a.game",
        bytes: GAME.as_bytes(),
    };
    let code = match rig(&rt, &asked, game, Some(&mut Full), &mut out, &mut refused) {
        Ok(status) => status.code(),
        Err(_) => 255,
    };
    assert!(rt; code == 3 && out.is_empty() && refused.as_slice() == REFUSED.as_bytes());
}

/// Whether the command fails because the line of a refusal cannot be written.
fn fails_at_a_full_writer<R>(rt: &R) -> bool
where
    R: Clock + Threads + Wait + Sync + AllocGlobal,
{
    let no_game = Text {
        file: "a.game",
        bytes: b"",
    };
    let mut out = Vec::new(rt.alloc());
    rig(rt, &ASKED, no_game, None::<&mut Full>, &mut out, &mut Full).is_err()
}

#[test]
fn a_refusal_that_cannot_be_written_is_the_writers_error(rt: HostRuntime) {
    assert!(rt; fails_at_a_full_writer(&rt));
}
