//! What all command lines share: their words, the parser's messages, and the exit status.

ghost use Rattle.std.specs.Prelude.{◌≡◌, ◌≢◌, ◌⊎◌, ◌↔◌, IfOk, IfErr, IsTrue, Some, codes};
ghost use Rattle.std.specs.IoError.{error_kind};
ghost use Rattle.std.specs.declared.io.ErrorKind.TheVariants as kinds;
ghost use Rattle.clap.specs.Values.{kind_of};
ghost use Rattle.clap.specs.Matches.{found_of, first_value};
ghost use Rattle.c8_command.specs.declared.refusal.Part.TheVariants as parts;
ghost use Rattle.c8_command.specs.declared.status.Status.TheVariants as statuses;

use crate::outline::YES;
use crate::{Refusal, Status};
use clap::ArgMatches;
use clap::error::ErrorKind;
use std::alloc::Global;
use std::env::Args;
use std::io;
use std::io::Write;

/// Which of the program's streams are a terminal.
#[derive(Clone, Copy, Debug, PartialEq, Eq)]
pub struct Terminals {
    /// Standard input.
    pub input: bool,
    /// Standard output.
    pub output: bool,
}

impl Terminals {
    /// No stream is a terminal.
    pub const NONE: Terminals = Terminals {
        input: false,
        output: false,
    };
}

/// The status with which the program ends. If output cannot be written, that is the fault of a disk, and it writes the
/// line of the refusal. If nobody reads the output any more, as behind `head`, it writes nothing, and the status is the same.
pub fn status_at<E: Write>(ended: io::Result<Status>, refused: &mut E) -> Status
    ensures told { IfOk ended (λ status. result ≡ status) }
    ensures quiet { IfErr ended (λ e. error_kind e ≡ kinds.BrokenPipe
        → E.contents refused.new ≡ E.contents refused.old) }
    ensures memory { IfErr ended
        (λ e. error_kind e ≡ kinds.OutOfMemory → result ≡ statuses.Refused) }
    ensures disk { IfErr ended
        (λ e. error_kind e ≢ kinds.OutOfMemory → result ≡ statuses.Failed) }
{
    match ended {
        Ok(status) => status,
        Err(error) => {
            let refusal = refusal_at(&error);
            if error.kind() != io::ErrorKind::BrokenPipe {
                // If this cannot be written either, only the status tells it.
                let _ = refusal.tell(refused);
            }
            refusal.status()
        }
    }
}

/// The refusal for an error of the system.
fn refusal_at(error: &io::Error) -> Refusal
    ensures memory { error_kind error.now ≡ kinds.OutOfMemory → result.part ≡ parts.Open }
    ensures disk { error_kind error.now ≢ kinds.OutOfMemory → result.part ≡ parts.Disk }
{
    if error.kind() == io::ErrorKind::OutOfMemory {
        Refusal::MEMORY
    } else {
        Refusal::DISK
    }
}

/// Whether refusals are explained: `--explain` is `yes`, because it was given or because the command line has that default.
pub fn is_explained(given: &ArgMatches<'_>) -> bool
    ensures { IsTrue result ↔
        first_value (found_of given.now) (codes "explain") ≡ Some (codes "yes") }
{
    given.get_str("explain") == Some(YES)
}

/// The word that was given for a required argument.
pub fn word_of<'a>(given: &ArgMatches<'a>, name: &str) -> &'a str {
    given.get_str(name).unwrap_or("")
}

/// The words of a command line, the program's own name first. If one is not UTF-8, it writes that to `refused` and
/// returns `None`. The error is a writer's, or that memory ran out.
pub fn words_in<E: Write>(
    alloc: Global,
    args: io::Result<Args>,
    refused: &mut E,
) -> io::Result<Option<Vec<String>>> {
    match args {
        Ok(args) => Ok(Some(args.collect(alloc)?)),
        Err(error) if error.kind() == io::ErrorKind::InvalidData => {
            writeln!(refused, "error: an argument is not UTF-8")?;
            Ok(None)
        }
        Err(error) => Err(error),
    }
}

/// Writes the parser's message: help and version to `out`, a mistake to `refused`. The error is a writer's, or that
/// memory ran out.
pub fn tell<W: Write, E: Write>(
    alloc: Global,
    error: &clap::Error,
    out: &mut W,
    refused: &mut E,
) -> io::Result<Status>
    ensures shown { (kind_of error.now ≡ ErrorKind.DisplayHelp)
        ⊎ (kind_of error.now ≡ ErrorKind.DisplayVersion)
        → IfOk result (λ status. status ≡ statuses.Done) }
    ensures mistake { (kind_of error.now ≢ ErrorKind.DisplayHelp)
        → (kind_of error.now ≢ ErrorKind.DisplayVersion)
        → IfOk result (λ status. status ≡ statuses.CommandLine) }
{
    if error.kind() == ErrorKind::OutOfMemory {
        Err(io::ErrorKind::OutOfMemory.into())
    } else if error.use_stderr() {
        let text = format!(in alloc; "{error}")?;
        write_mistake(text.as_str(), refused)?;
        Ok(Status::CommandLine)
    } else {
        write!(out, "{error}")?;
        Ok(Status::Done)
    }
}

/// How the parser's advice to pass an option as a value begins. No command takes such a value.
const ADVICE: &str = "\n  tip: to pass ";

/// Writes the parser's message about a mistake, without that advice.
fn write_mistake<E: Write>(text: &str, refused: &mut E) -> io::Result<()> {
    let Some((before, advice)) = text.split_once(ADVICE) else {
        return refused.write_all(text.as_bytes());
    };
    let before = before.strip_suffix("\n").unwrap_or(before);
    refused.write_all(before.as_bytes())?;
    match advice.split_once("\n") {
        Some((_, rest)) => {
            refused.write_all(b"\n")?;
            refused.write_all(rest.as_bytes())
        }
        None => Ok(()),
    }
}
