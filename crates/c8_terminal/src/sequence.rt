//! The numbers of a control sequence, and the signal that it gives.
ghost use Rattle.std.specs.Prelude.{◌≡◌, ◌<◌, ◌≤◌, ◌+◌, true, false};
ghost use Rattle.c8_terminal.specs.Decoder.{numbers_of};
ghost use Rattle.c8_terminal.specs.Decoding as decoding;
ghost use Rattle.c8_terminal.specs.Decoding.{arrow, has_control, help_of, is_blank, is_letter, key_event, meaning, named, told_of, with_control, with_digit, with_number};

use crate::keyboard::{arrow_key, key_of, small};
use crate::signal::Signal;

/// The event number of a press; 0 if the terminal names none.
const PRESSED: u16 = 1;

/// The event number of a release. Lower numbers are of a key that is down.
const LET_GO: u16 = 3;

/// The last byte of the sequence of F1.
const F1: u8 = b'P';

/// The character of the escape key.
const ESCAPE: u16 = 27;

/// The numbers of a control sequence so far. `;` separates its fields, `:` the parts of a field; both are counted from
/// 0. A number that has not come is 0.
#[derive(Clone, Copy)]
pub(crate) struct Numbers {
    field: u8,
    part: u8,
    code: u16,
    base: u16,
    modifiers: u16,
    event: u16,
}

impl Numbers {
    /// Makes the numbers before the first byte.
    pub(crate) fn new() -> Self
        ensures { numbers_of result ≡ decoding.no_numbers }
    {
        Numbers {
            field: 0,
            part: 0,
            code: 0,
            base: 0,
            modifiers: 0,
            event: 0,
        }
    }

    /// Adds a digit, given as its character.
    pub(crate) fn with_number(mut self, digit: u8) -> Self
        requires from { 0x30 ≤ digit }
        requires to { digit ≤ 0x39 }
        ensures { numbers_of result ≡ with_number digit (numbers_of self) }
    {
        match (self.field, self.part) {
            (0, 0) => self.code = with_digit(self.code, digit),
            (0, 2) => self.base = with_digit(self.base, digit),
            (1, 0) => self.modifiers = with_digit(self.modifiers, digit),
            (1, 1) => self.event = with_digit(self.event, digit),
            _ => {}
        }
        self
    }

    /// Starts the next part of a field. All parts from the fourth on count as one.
    pub(crate) fn next_part(self) -> Self
        ensures { numbers_of result ≡ decoding.next_part (numbers_of self) }
    {
        let part = if self.part < 3 { self.part + 1 } else { 3 };
        Numbers { part, ..self }
    }

    /// Starts the next field. All fields from the third on count as one.
    pub(crate) fn next_field(self) -> Self
        ensures { numbers_of result ≡ decoding.next_field (numbers_of self) }
    {
        let field = if self.field < 2 { self.field + 1 } else { 2 };
        Numbers {
            field,
            part: 0,
            ..self
        }
    }

    /// Returns whether nothing but zeros has come.
    pub(crate) fn is_blank(self) -> bool
        ensures { result ≡ is_blank (numbers_of self) }
    {
        self.field == 0 && self.part == 0 && self.code == 0
    }

    /// Returns whether the sequence names an event, which shows that the terminal reports releases.
    pub(crate) fn names_event(self) -> bool
        ensures { result ≡ decoding.names_event (numbers_of self) }
    {
        self.event > 0
    }

    /// Returns the signal of a sequence that ends with this byte.
    pub(crate) fn meaning(self, last: u8, exact: bool) -> Option<Signal>
        ensures { result ≡ meaning last (numbers_of self) exact }
    {
        match last {
            b'u' => self.key_event(exact),
            b'O' => Some(Signal::LetGo),
            _ => named(last, self.event, exact),
        }
    }

    /// Returns the signal of an event of a key.
    fn key_event(self, exact: bool) -> Option<Signal>
        ensures { result ≡ key_event (numbers_of self) exact }
    {
        if self.event >= LET_GO {
            told_of(self.key(), self.event, exact)
        } else if self.code == ESCAPE {
            Some(Signal::Quit)
        } else if self.has_control() {
            self.with_control()
        } else {
            told_of(self.key(), self.event, exact)
        }
    }

    /// Returns the signal of a letter with control.
    fn with_control(self) -> Option<Signal>
        ensures { result ≡ with_control (numbers_of self) }
    {
        if self.is_letter(b'c') {
            Some(Signal::Quit)
        } else if self.is_letter(b'd') {
            Some(Signal::GiveUp)
        } else if self.is_letter(b'l') {
            Some(Signal::Repaint)
        } else {
            None
        }
    }

    /// Returns the key of the keypad, by the place of the key that was used, if the terminal gives it.
    fn key(self) -> Option<u8>
        ensures { result ≡ decoding.key_at (numbers_of self) }
    {
        key_of(if self.base == 0 { self.code } else { self.base })
    }

    /// Returns whether control is held.
    fn has_control(self) -> bool
        ensures { result ≡ has_control (numbers_of self) }
    {
        self.modifiers.saturating_sub(1) / 4 % 2 == 1
    }

    /// Returns whether the key is this letter, by its character or by its place.
    fn is_letter(self, letter: u8) -> bool
        ensures { result ≡ is_letter letter (numbers_of self) }
    {
        small(self.code) == u16::from(letter) || small(self.base) == u16::from(letter)
    }
}

/// Appends a digit, given as its character, to a number. Numbers above 65535 become 65535.
pub(crate) fn with_digit(number: u16, digit: u8) -> u16
    requires from { 0x30 ≤ digit }
    requires to { digit ≤ 0x39 }
    ensures { result ≡ with_digit number digit }
{
    number
        .saturating_mul(10)
        .saturating_add(u16::from(digit - b'0'))
}

/// Returns the signal of F1 or of an arrow, by the last byte of the sequence and the event.
pub(crate) fn named(last: u8, event: u16, exact: bool) -> Option<Signal>
    ensures { result ≡ named last event exact }
{
    if last == F1 {
        help_of(event)
    } else {
        arrow(last, event, exact)
    }
}

/// Returns the signal of F1, by its event: a press asks for help.
fn help_of(event: u16) -> Option<Signal>
    ensures { result ≡ help_of event }
{
    if event > PRESSED {
        None
    } else {
        Some(Signal::Help)
    }
}

/// Returns the signal of an arrow, by the last byte of the sequence and the event.
fn arrow(last: u8, event: u16, exact: bool) -> Option<Signal>
    ensures { result ≡ arrow last event exact }
{
    told_of(arrow_key(last), event, exact)
}

/// Returns the signal of an event of a key of the keypad. If no event is named, an exact terminal holds the key until
/// its release; for another the key is struck.
pub(crate) fn told_of(key: Option<u8>, event: u16, exact: bool) -> Option<Signal>
    ensures { result ≡ decoding.told_of_any key event exact }
{
    let key = key?;
    if event == LET_GO {
        Some(Signal::Up(key))
    } else if event > LET_GO {
        None
    } else if exact {
        Some(Signal::Down(key))
    } else {
        Some(Signal::Struck(key))
    }
}
