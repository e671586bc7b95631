//! The commands of cases, one after another.
use crate::stage::{Stage, text_of};
use c8_game::Game;
use c8_part_cases::{Answers, words_in};
use std::alloc::{AllocError, Global};
use std::io;
use std::io::{ErrorKind, Write};

/// The line between two cases.
const NEXT: &[u8] = b"====";

/// Runs the commands of cases, and writes what they print. A line `====` stands between two cases. A line that begins
/// with two spaces belongs to the block of the command above it. Behind what a command prints comes a line `----`; for a
/// command that cannot be read there is the line `unreadable` alone. The error is that memory ran out, that a line is not
/// UTF-8, or the writer's.
pub fn run<W: Write>(alloc: Global, text: &[u8], out: &mut W) -> io::Result<()> {
    let lines = lines_in(alloc, text)?;
    for case in lines.split(|line| *line == NEXT) {
        run_case(alloc, case, out)?;
    }
    Ok(())
}

fn lines_in(alloc: Global, text: &[u8]) -> Result<Vec<&[u8]>, AllocError> {
    let mut lines = Vec::new(alloc);
    for line in text.split_inclusive(|byte| *byte == b'\n') {
        lines.push(line.strip_suffix(b"\n".as_slice()).unwrap_or(line))?;
    }
    Ok(lines)
}

fn run_case<W: Write>(alloc: Global, lines: &[&[u8]], out: &mut W) -> io::Result<()> {
    let game = game_in(alloc, lines, b"game")?;
    let other = game_in(alloc, lines, b"game other")?;
    run_in(alloc, game.as_ref(), other.as_ref(), lines, out)
}

/// Runs the commands in the games that they name.
fn run_in<W: Write>(
    alloc: Global,
    game: Option<&Game>,
    other: Option<&Game>,
    lines: &[&[u8]],
    out: &mut W,
) -> io::Result<()> {
    let mut stage = Stage::new(alloc, game, other)?;
    run_on(alloc, &mut stage, lines, out)
}

fn run_on<W: Write>(
    alloc: Global,
    stage: &mut Stage<'_>,
    lines: &[&[u8]],
    out: &mut W,
) -> io::Result<()> {
    let mut answers = Answers::new(alloc);
    let mut place = 0usize;
    for _ in 0..lines.len() {
        let from = place.min(lines.len());
        let Some((line, block)) = first_in(&lines[from..]) else {
            break;
        };
        perform(alloc, stage, line, block, &mut answers, out)?;
        place = from.saturating_add(block.len()).saturating_add(1);
    }
    Ok(())
}

/// Does what a command says, and writes what it prints.
fn perform<W: Write>(
    alloc: Global,
    stage: &mut Stage<'_>,
    line: &[u8],
    block: &[&[u8]],
    answers: &mut Answers,
    out: &mut W,
) -> io::Result<()> {
    answers.text.clear();
    let words = words_in(alloc, line)?;
    match stage.perform(&words, block, answers) {
        Ok(()) => write_answer(&answers.text, out),
        Err(error) if error.kind() == ErrorKind::InvalidInput => out.write_all(b"unreadable\n"),
        Err(error) => Err(error),
    }
}

fn write_answer<W: Write>(text: &[u8], out: &mut W) -> io::Result<()> {
    out.write_all(text)?;
    out.write_all(b"----\n")
}

/// The first command, and its block.
fn first_in<'a, 't>(lines: &'a [&'t [u8]]) -> Option<(&'t [u8], &'a [&'t [u8]])> {
    let [line, rest @ ..] = lines else {
        return None;
    };
    Some((*line, &rest[..block_length(rest).min(rest.len())]))
}

/// How many lines belong to the block of the command above them.
fn block_length(lines: &[&[u8]]) -> usize {
    let mut length = 0usize;
    for line in lines {
        if !line.starts_with(b"  ") {
            break;
        }
        length = length.saturating_add(1);
    }
    length
}

/// The game in the block of the first command that is this line.
fn game_in(alloc: Global, lines: &[&[u8]], wanted: &[u8]) -> io::Result<Option<Game>> {
    let mut place = 0usize;
    for _ in 0..lines.len() {
        let from = place.min(lines.len());
        let Some((line, block)) = first_in(&lines[from..]) else {
            break;
        };
        if line == wanted {
            let text = text_of(alloc, block)?;
            return Ok(Game::read(alloc, &text).ok());
        }
        place = from.saturating_add(block.len()).saturating_add(1);
    }
    Ok(None)
}
