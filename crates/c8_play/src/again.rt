//! Command lines to be typed.

use std::alloc::{AllocError, Global};
use std::io;
use std::io::Write;

/// The most bytes of a word.
const LONGEST_WORD: usize = 4096;

/// The characters beside letters and digits that no shell changes.
const PLAIN: &[u8] = b"_-./:,=@%+";

/// What the line of the process lacks to go on with the same match.
#[derive(Clone, Copy)]
pub struct Drawn<'a> {
    /// The room, if it was drawn.
    pub room: Option<u64>,
    /// A list of the line from which one was drawn, and that one.
    pub word: Option<(&'a str, &'a str)>,
}

impl<'a> Drawn<'a> {
    /// Nothing was drawn.
    pub const NOTHING: Drawn<'static> = Drawn {
        room: None,
        word: None,
    };
}

/// The options that end a match after some turns or frames: the line to go on lacks them.
const ENDS: &[&str] = &["--stop", "--turns"];

/// Writes the words of the process as a line for a shell, with what was drawn, and without what would end the match at once.
pub(crate) fn write_again<E: Write>(
    alloc: Global,
    out: &mut E,
    drawn: Drawn<'_>,
) -> io::Result<()> {
    write!(out, "  ./c8play")?;
    let mut bytes = [0; LONGEST_WORD];
    let mut is_value = false;
    for place in 1..os::arg_count() {
        let size = os::arg(place, &mut bytes);
        let word = str::from_utf8(&bytes[..size]).unwrap_or("?");
        if !is_value && !is_end(word) {
            write_word(alloc, out, word, drawn.word)?;
        }
        is_value = !is_value && ENDS.iter().any(|option| *option == word);
    }
    if let Some(room) = drawn.room {
        write!(out, " --room {room}")?;
    }
    writeln!(out)
}

/// Whether a word is an option that ends a match, with its value or before it.
fn is_end(word: &str) -> bool {
    let option = match word.split_once("=") {
        Some((option, _)) => option,
        None => word,
    };
    ENDS.iter().any(|end| *end == option)
}

/// Writes a word behind a space. What was drawn from it, or from what stands behind its `=`, is written in its place.
fn write_word<E: Write>(
    alloc: Global,
    out: &mut E,
    word: &str,
    drawn: Option<(&str, &str)>,
) -> io::Result<()> {
    if let Some((list, one)) = drawn
        && let Some(option) = word.strip_suffix(list)
        && (option.is_empty() || option.ends_with('='))
    {
        let word = format!(in alloc; "{option}{one}")?;
        return write!(out, " {}", quoted(alloc, word.as_str())?);
    }
    write!(out, " {}", quoted(alloc, word)?)
}

/// Returns a word as a shell takes it: in quotes, unless it has only letters, digits and characters that need none.
pub fn quoted(alloc: Global, word: &str) -> Result<String, AllocError> {
    if !word.is_empty() && word.bytes().all(is_plain) {
        return format!(in alloc; "{word}");
    }
    let mut text = format!(in alloc; "'")?;
    for (place, part) in word.split('\'').enumerate() {
        if place > 0 {
            text.push_str("'\\''")?;
        }
        text.push_str(part)?;
    }
    text.push_str("'")?;
    Ok(text)
}

/// Whether no shell changes a character.
fn is_plain(byte: u8) -> bool {
    byte.is_ascii_alphanumeric() || PLAIN.contains(&byte)
}
