//! The lines of a text.
ghost use Rattle.std.specs.Prelude.{◌≡◌, ◌<◌, ◌==◌, ◌∷◌, None, IsSome, IfNone, IfSome, length, position};
ghost use Rattle.std.specs.Iterator.{YieldsFirstRef, item_count};
ghost use Rattle.std.specs.List.{before_first, after_first, slice_get};
ghost use Rattle.std.specs.Option.{option_map};
ghost use Rattle.std.specs.Str.Lines.{lines, strip_carriage_return};

use std::fmt;

/// The lines of a text that are still to be read.
///
/// A line ends at a line feed; one carriage return before it is dropped too. A final line feed starts no further line.
/// A last line without a line feed keeps its carriage return.
#[derive(Clone, Copy)]
pub struct Lines<'a> {
    rest: &'a [u8],
}

/// Prints how many bytes are left, not the bytes.
impl<'a> fmt::Debug for Lines<'a> {
    fn fmt<W: fmt::Write>(&self, f: &mut fmt::Formatter<W>) -> fmt::Result {
        let left = self.rest.len();
        write!(f, "Lines {{ bytes left: {left} }}")
    }
}

impl<'a> Lines<'a> {
    ghost use Rattle.c8_game.specs.Lines.{lines_left};

    /// Makes the lines of `text`, which may have any bytes.
    pub fn new(text: &'a [u8]) -> Self
        ensures { lines_left result ≡ lines text.entry.now }
    {
        Lines { rest: text }
    }

    /// Returns the line at a place, counted from 0; none beyond the last.
    pub fn at(text: &'a [u8], place: usize) -> Option<&'a [u8]>
        ensures { option_map (λ line. line.now) result ≡ slice_get (lines text.entry.now) place }
    {
        Lines::new(text).nth(place)
    }
}

impl<'a> Iterator for Lines<'a> {
    ghost use Rattle.c8_game.specs.Lines.{lines_left};

    type Item = &'a [u8];

    ghost next_gives = { YieldsFirstRef lines_left };

    ghost remaining = { item_count lines_left };

    fn next(&mut self) -> Option<&'a [u8]> {
        if self.rest.is_empty() {
            return None;
        }
        let (line, rest) = first_line(self.rest);
        self.rest = rest;
        Some(line)
    }
}

/// Splits a non-empty text into its first line and what follows that line's line feed.
fn first_line(text: &[u8]) -> (&[u8], &[u8])
    requires { 0 < length text.now }
    ensures { lines text.now ≡ result.0.now ∷ lines result.1.now }
{
    match cut_at(text, b'\n') {
        None => (text, &[]),
        Some((line, rest)) => (without_return(line), rest),
    }
}

/// Splits a text at its first `byte` into what is before it and what is after it.
pub fn cut_at(text: &[u8], byte: u8) -> Option<(&[u8], &[u8])>
    ensures none { IfNone result (position (λ b. b == byte) text.now ≡ None) }
    ensures before { IfSome result (λ parts. parts.0.now ≡ before_first (λ b. b == byte) text.now) }
    ensures after { IfSome result (λ parts. parts.1.now ≡ after_first (λ b. b == byte) text.now) }
    ensures found { IfSome result (λ parts. IsSome (position (λ b. b == byte) text.now)) }
{
    match place_of(text, byte) {
        None => None,
        Some(place) => Some((&text[..place], &text[place + 1..])),
    }
}

/// Returns the place of the first `byte`.
fn place_of(text: &[u8], byte: u8) -> Option<usize>
    ensures { result ≡ position (λ b. b == byte) text.now }
{
    text.iter().position(|b| *b == byte)
}

/// Drops one carriage return at the end of a line, if it has one.
fn without_return(line: &[u8]) -> &[u8]
    ensures { result.now ≡ strip_carriage_return line.now }
{
    match line {
        [front @ .., b'\r'] => front,
        _ => line,
    }
}
