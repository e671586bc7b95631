//! Where a fault is, and the second line of a refusal, which explains it.

use crate::error::TextsError;
use std::fmt::Display;
use std::io;
use std::io::Write;

/// The most bytes of a line that are shown.
pub const MOST_SHOWN: usize = 100;

/// Where the fault of a refusal is.
#[derive(Clone, Copy, Debug, PartialEq, Eq)]
pub enum Site<'a> {
    /// At no place with a name.
    Nowhere,
    /// In the file, or its substitute, with this name.
    File(&'a str),
    /// In one line of a file.
    Line {
        file: &'a str,
        /// The file's first line is at 0.
        place: usize,
        /// The line without its end.
        bytes: &'a [u8],
    },
}

impl<'a> Site<'a> {
    /// Returns the line at a place of a file, if there is one; otherwise the file.
    pub fn line(file: &'a str, place: usize, line: Option<&'a [u8]>) -> Self {
        match line {
            Some(bytes) => Site::Line { file, place, bytes },
            None => Site::File(file),
        }
    }

    /// Writes the line that explains a refusal: `SENTENCE`, `FILE: SENTENCE`, or `FILE, line N: SENTENCE: "TEXT"`,
    /// where N is 1 for the file's first line. In TEXT, quotes, backslashes and bytes that are not printable ASCII are
    /// escaped. If a line is longer than `MOST_SHOWN` bytes, TEXT is its first `MOST_SHOWN` bytes, and ` and N bytes
    /// more` follows.
    pub fn explain<W: Write, D: Display>(self, sentence: &D, out: &mut W) -> io::Result<()> {
        match self {
            Site::Nowhere => writeln!(out, "{sentence}"),
            Site::File(file) => writeln!(out, "{file}: {sentence}"),
            Site::Line { file, place, bytes } => {
                let number = place.saturating_add(1);
                write!(out, "{file}, line {number}: {sentence}: ")?;
                write_line(bytes, out)
            }
        }
    }
}

impl TextsError {
    /// Returns the file of a command that is at fault.
    pub fn site<'a>(self, first: &'a str, second: &'a str) -> Site<'a> {
        match self {
            TextsError::FirstFailed | TextsError::FirstMemory => Site::File(first),
            TextsError::SecondFailed | TextsError::SecondMemory => Site::File(second),
        }
    }
}

/// Writes the bytes of a line between quotes, and how many bytes it does not show.
fn write_line<W: Write>(bytes: &[u8], out: &mut W) -> io::Result<()> {
    let shown = bytes.len().min(MOST_SHOWN);
    write!(out, "\"{}\"", bytes[..shown].escape_ascii())?;
    if shown < bytes.len() {
        let more = bytes.len() - shown;
        write!(out, " and {more} bytes more")?;
    }
    writeln!(out)
}
