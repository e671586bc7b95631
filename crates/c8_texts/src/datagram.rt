//! `c8play show`: the fields of a datagram, from its bytes in hexadecimal.

ghost use Rattle.std.specs.Prelude.{◌≡◌, IfOk, MatchResult, Result};
ghost use Rattle.hex.specs.Hex.{decode_of};
ghost use Rattle.c8_command.specs.Status.{status_of_outcome};
ghost use Rattle.c8_wire.specs.Lent.{packet_of};
ghost use Rattle.c8_wire.specs.Packet.{Packet};
ghost use Rattle.c8_wire.specs.Spelling.{Spells};
ghost use Rattle.c8_texts.specs.ShowErrors.{show_part};
ghost use Rattle.c8_texts.specs.Shown.{IsOutcomeOfShow, IsRefusalOfWord, IsRefusalOfBytes};
ghost use Rattle.c8_texts.specs.declared.show_error.ShowError.{ShowError};

use crate::show_error::{HexError, ShowError};
use c8_command::{Refusal, Site, Status};
use c8_wire::{Datagram, view};
use hex::FromHexError;
use std::alloc::Global;
use std::io;
use std::io::Write;

/// Writes the fields of the datagram that `word` spells in hexadecimal to `out`. If the word is refused, it writes the
/// line of the refusal to `refused`, and nothing to `out`. With `explain`, a second line has the sentence of the error.
/// The error is a writer's.
pub fn show<W: Write, E: Write>(
    alloc: Global,
    word: &str,
    explain: bool,
    out: &mut W,
    refused: &mut E,
) -> io::Result<Status>
    ensures { IfOk result (λ status. (outcome : Result Packet ShowError)
        × IsOutcomeOfShow word.now outcome × (status ≡ status_of_outcome show_part outcome)) }
{
    match bytes_of(alloc, word) {
        Ok(bytes) => tell(datagram_in(&bytes), explain, out, refused),
        Err(error) => tell(Err(ShowError::Hex(error)), explain, out, refused),
    }
}

/// Returns the bytes of a hexadecimal word, two digits each, in either case.
fn bytes_of(alloc: Global, word: &str) -> Result<Vec<u8>, HexError>
    ensures { MatchResult result
        (λ bytes. decode_of word.now ≡ Ok bytes.items) (IsRefusalOfWord word.now) }
{
    match hex::decode(alloc, word) {
        Ok(bytes) => Ok(bytes),
        Err(FromHexError::OutOfMemory) => Err(HexError::Memory),
        Err(_) => Err(HexError::Bad),
    }
}

/// Returns the datagram that these bytes spell, or why they are refused.
fn datagram_in(bytes: &[u8]) -> Result<Datagram<'_>, ShowError>
    ensures { MatchResult result (λ datagram. Spells bytes.now (packet_of datagram))
        (IsRefusalOfBytes bytes.now) }
{
    match view(bytes) {
        Ok(datagram) => Ok(datagram),
        Err(error) => Err(ShowError::Wire(error)),
    }
}

/// Writes the fields of the datagram to `out`; or the line of the refusal to `refused`, and its explanation if asked
/// for.
fn tell<W: Write, E: Write>(
    outcome: Result<Datagram<'_>, ShowError>,
    explain: bool,
    out: &mut W,
    refused: &mut E,
) -> io::Result<Status>
    ensures { IfOk result (λ status. status ≡ status_of_outcome show_part outcome.entry) }
{
    match outcome {
        Ok(datagram) => {
            writeln!(out, "{datagram}")?;
            Ok(Status::Done)
        }
        Err(error) => {
            let site = explain.then_some(Site::Nowhere);
            Refusal::from(error).tell_at(site, &error, refused)
        }
    }
}
