//! `c8play sim`: all players of a game in one world, driven by a script.

ghost use Rattle.std.specs.Prelude.{IfOk};
ghost use Rattle.c8_script.specs.Sim.{HasEnded, IsOutcomeOfSim};

use crate::answers::{write_answers, write_ends};
use crate::error::{ScriptError, SimError};
use crate::explain::site_if;
use crate::journals::are_written;
use crate::transcript::{Transcript, Unfinished, play_script};
use c8_command::{Refusal, Site, Status, Text, is_explained, read_both, word_of};
use c8_game::GameError;
use clap::ArgMatches;
use std::alloc::Global;
use std::io;
use std::io::Write;
use std::rt::Files;

/// Runs `sim` as the command line asks. The error is a writer's, or that memory ran out.
pub fn sim_given<R, W: Write, E: Write>(
    rt: &R,
    given: &ArgMatches<'_>,
    out: &mut W,
    refused: &mut E,
) -> io::Result<Status>
where
    R: Files + AllocGlobal,
{
    let (game, script) = (word_of(given, "GAME"), word_of(given, "SCRIPT"));
    let journals = given.get_str("journals");
    let explain = is_explained(given);
    sim_files(rt, game, script, journals, explain, out, refused)
}

/// Reads a game and a script from two files, and runs them as [`sim`] does. It writes the players' journals to the folder
/// `journals`, if there is one. If a file cannot be read, the refusal is the disk's, whatever the other file says. If a
/// journal cannot be written, so is the refusal, and nothing is written to `out`. The error is a writer's.
pub fn sim_files<R, W: Write, E: Write>(
    rt: &R,
    game: &str,
    script: &str,
    journals: Option<&str>,
    explain: bool,
    out: &mut W,
    refused: &mut E,
) -> io::Result<Status>
where
    R: Files + AllocGlobal,
{
    match read_both(rt, game, script) {
        Ok((text, lines)) => {
            let (file, bytes) = (game, text.as_slice());
            let game = Text { file, bytes };
            let (file, bytes) = (script, lines.as_slice());
            let script = Text { file, bytes };
            let outcome = play_script(rt.alloc(), game.bytes, script.bytes);
            if let Some(folder) = journals
                && let Ok(transcript) = &outcome
                && !leave_journals(rt, folder, transcript)
            {
                let site = explain.then_some(Site::File(folder));
                return Refusal::DISK.tell_at(site, &"journals that cannot be written", refused);
            }
            tell_outcome(rt.alloc(), game, script, outcome, explain, out, refused)
        }
        Err(error) => {
            let site = explain.then_some(error.site(game, script));
            let game = SimError::Game(GameError::Memory).into();
            let script = SimError::Script(ScriptError::Memory).into();
            error.refusal(game, script).tell_at(site, &error, refused)
        }
    }
}

/// Writes the journals of all players to files of a folder. Returns whether each was written.
fn leave_journals<R: Files + AllocGlobal>(rt: &R, folder: &str, transcript: &Transcript) -> bool {
    let players = transcript.ends.players.len();
    are_written(rt, folder, players, &transcript.journals)
}

/// Runs `script` for the players of the game that `game` spells, from empty journals on. Writes the answer to each
/// event and then how far each player is to `out`. If a text is refused, it writes the line of the refusal to
/// `refused`, and nothing to `out`. If memory runs out after both texts were read, it also writes the answers so far.
/// With `explain`, a second line says where the fault is. The error is a writer's.
pub fn sim<W: Write, E: Write>(
    alloc: Global,
    game: Text<'_>,
    script: Text<'_>,
    explain: bool,
    out: &mut W,
    refused: &mut E,
) -> io::Result<Status>
    ensures { IfOk result (λ status.
        HasEnded game.entry.bytes.now script.entry.bytes.now status
        (W.contents out.old) (W.contents out.new)) }
{
    let outcome = play_script(alloc, game.bytes, script.bytes);
    tell_outcome(alloc, game, script, outcome, explain, out, refused)
}

/// Writes the outcome of the two texts, as `sim` says.
fn tell_outcome<W: Write, E: Write>(
    alloc: Global,
    game: Text<'_>,
    script: Text<'_>,
    outcome: Result<Transcript, Unfinished>,
    explain: bool,
    out: &mut W,
    refused: &mut E,
) -> io::Result<Status>
    requires { IsOutcomeOfSim game.bytes.now script.bytes.now outcome }
    ensures { IfOk result (λ status.
        HasEnded game.entry.bytes.now script.entry.bytes.now status
        (W.contents out.old) (W.contents out.new)) }
{
    match outcome {
        Ok(transcript) => {
            write_answers(out, &transcript.answers)?;
            write_ends(out, &transcript.ends, transcript.watched)?;
            Ok(Status::Done)
        }
        Err(unfinished) => {
            write_answers(out, &unfinished.answers)?;
            let site = site_if(explain, alloc, game, script, unfinished.error);
            Refusal::from(unfinished.error).tell_at(site, &unfinished.error, refused)
        }
    }
}
