//! Texts that are read whole from files.

ghost use Rattle.std.specs.Prelude.{◌≡◌, ◌≤◌, Some, IfOk, IfErr, IfSome, length};
ghost use Rattle.std.specs.Result.{result_err};
ghost use Rattle.c8_command.specs.Texts.{error_of_texts};

use crate::error::{TextError, TextsError};
use std::alloc::Global;
use std::fs;
use std::io::{ErrorKind, Read};
use std::rt::Files;

/// The most bytes of a text.
pub const LONGEST_TEXT: u64 = 16_777_216;

/// A text, and the name of its file.
#[derive(Clone, Copy, Debug, PartialEq, Eq)]
pub struct Text<'a> {
    pub file: &'a str,
    pub bytes: &'a [u8],
}

/// Reads the two files of a command. It reads the second even if the first fails.
pub fn read_both<R: Files + AllocGlobal>(
    rt: &R,
    first: &str,
    second: &str,
) -> Result<(Vec<u8>, Vec<u8>), TextsError> {
    let first = read_file(rt, first);
    let second = read_file(rt, second);
    both(first, second)
}

/// Returns both texts of a command, or why they are refused: a file that cannot be read comes before out of memory, and
/// the first text before the second.
pub fn both<T: Drop>(
    first: Result<T, TextError>,
    second: Result<T, TextError>,
) -> Result<(T, T), TextsError>
    ensures texts { IfOk result (λ texts. (first ≡ Ok texts.0) × (second ≡ Ok texts.1)) }
    ensures refused { IfErr result (λ error.
        error_of_texts (result_err first) (result_err second) ≡ Some error) }
{
    match (first, second) {
        (Ok(first), Ok(second)) => Ok((first, second)),
        (Err(TextError::Failed), _) => Err(TextsError::FirstFailed),
        (_, Err(TextError::Failed)) => Err(TextsError::SecondFailed),
        (Err(TextError::Memory), _) => Err(TextsError::FirstMemory),
        (_, Err(TextError::Memory)) => Err(TextsError::SecondMemory),
    }
}

/// Reads the bytes of a file.
pub fn read_file<R: Files + AllocGlobal>(rt: &R, path: &str) -> Result<Vec<u8>, TextError> {
    let Ok(file) = fs::open(rt, path) else {
        return Err(TextError::Failed);
    };
    text_of(rt.alloc(), file)
}

/// Reads all that a reader has left. `Failed` if the reader fails or has more than `LONGEST_TEXT` bytes.
pub fn text_of<R: Read + Drop>(alloc: Global, reader: R) -> Result<Vec<u8>, TextError>
    ensures whole { IfOk result
        (λ text. IfSome (R.remaining reader) (λ bytes. text.items ≡ bytes)) }
    ensures bounded { IfOk result (λ text. length text.items ≤ LONGEST_TEXT) }
{
    let mut text = Vec::new(alloc);
    match reader.take(LONGEST_TEXT + 1).read_to_end(&mut text) {
        Ok(_) if text.len() as u64 <= LONGEST_TEXT => Ok(text),
        Ok(_) => Err(TextError::Failed),
        Err(error) if error.kind() == ErrorKind::OutOfMemory => Err(TextError::Memory),
        Err(_) => Err(TextError::Failed),
    }
}
