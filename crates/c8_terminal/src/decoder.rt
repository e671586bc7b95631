//! Decodes the bytes that a terminal sends.
ghost use Rattle.std.specs.Prelude.{◌≡◌, ◌<◌, ◌≤◌, true, false, Some, None, IfSome};
ghost use Rattle.c8_terminal.specs.Decoder.{IsOfKeypad, numbers_of, reading_of, read_by};
ghost use Rattle.c8_terminal.specs.Decoding as decoding;
ghost use Rattle.c8_terminal.specs.Decoding.{step_in, is_text, is_last, character, control_with, answer_with, reports_events};

use crate::keyboard::key_of;
use crate::sequence::{Numbers, named, told_of, with_digit};
use crate::signal::Signal;

const ESC: u8 = 0x1b;

const CONTROL_C: u8 = 0x03;

const CONTROL_D: u8 = 0x04;

const CONTROL_L: u8 = 0x0c;

/// The part of a sequence that has been read.
#[derive(Clone, Copy)]
enum Mode {
    /// Nothing: the last sequence is complete.
    Ready,
    /// `ESC`
    Escape,
    /// `ESC O`
    Single,
    /// `ESC [` and numbers.
    Control(Numbers),
    /// `ESC [ ?` and the number so far: the beginning of a terminal's answer.
    Answer(u16),
    /// `ESC [` and something that is ignored.
    Foreign,
}

/// Decodes the bytes that a terminal sends, one at a time, into what a person does at the keyboard.
///
/// Characters are mapped by their place on the left block of the keyboard to the keys of the keypad, and the arrows up,
/// down, right and left to the keys 5, 8, 9 and 7. F1 asks for help. Most terminals report only key presses. A terminal with kitty's
/// keyboard protocol also reports releases, once it is asked to. A terminal counts as exact once it answers that it
/// reports event types, or names an event. Until then a key is reported as struck, since some terminals have only a
/// part of the protocol.
///
/// Unknown sequences are skipped. Any bytes are accepted, and no call takes memory.
#[derive(Clone, Copy)]
pub struct Decoder {
    mode: Mode,
    exact: bool,
}

impl Decoder {
    /// Makes a decoder that has read nothing, for a terminal that is not known to report releases.
    pub fn new() -> Self
        ensures { read_by result ≡ decoding.nothing_read }
    {
        Decoder {
            mode: Mode::Ready,
            exact: false,
        }
    }

    /// Decodes one byte. Returns the signal of the character or sequence that ends with it.
    pub fn take(&mut self, byte: u8) -> Option<Signal>
        ensures told { result ≡ (decoding.step byte (read_by self.old)).told }
        ensures next { read_by self.new ≡ (decoding.step byte (read_by self.old)).next }
        ensures keys { IfSome result IsOfKeypad }
    {
        match self.mode {
            Mode::Ready => self.alone(byte),
            Mode::Escape => self.escaped(byte),
            Mode::Single => self.in_single(byte),
            Mode::Control(numbers) => self.in_control(numbers, byte),
            Mode::Answer(flags) => self.in_answer(flags, byte),
            Mode::Foreign => self.in_foreign(byte),
        }
    }

    /// Notes that no byte follows for now. A lone ESC was the escape key then. Other incomplete sequences are kept,
    /// because a read may cut one.
    pub fn pause(&mut self) -> Option<Signal>
        ensures told { result ≡ (decoding.pause (read_by self.old)).told }
        ensures next { read_by self.new ≡ (decoding.pause (read_by self.old)).next }
    {
        match self.mode {
            Mode::Escape => self.tell(Some(Signal::Quit)),
            _ => None,
        }
    }

    fn alone(&mut self, byte: u8) -> Option<Signal>
        ensures told { result ≡ (decoding.alone byte self.old.exact).told }
        ensures next { read_by self.new ≡ (decoding.alone byte self.old.exact).next }
    {
        match byte {
            ESC => self.read(Mode::Escape),
            _ => self.tell(character(byte)),
        }
    }

    fn escaped(&mut self, byte: u8) -> Option<Signal>
        ensures told { result ≡ (decoding.escaped byte self.old.exact).told }
        ensures next { read_by self.new ≡ (decoding.escaped byte self.old.exact).next }
    {
        match byte {
            ESC => {
                self.mode = Mode::Escape;
                Some(Signal::Quit)
            }
            b'[' => self.read(Mode::Control(Numbers::new())),
            b'O' => self.read(Mode::Single),
            _ => self.tell(None),
        }
    }

    fn in_single(&mut self, byte: u8) -> Option<Signal>
        ensures told { result ≡ (step_in decoding.Single byte self.old.exact).told }
        ensures next { read_by self.new ≡ (step_in decoding.Single byte self.old.exact).next }
    {
        if is_text(byte) {
            self.tell(named(byte, 0, self.exact))
        } else {
            self.alone(byte)
        }
    }

    fn in_control(&mut self, numbers: Numbers, byte: u8) -> Option<Signal>
        ensures told { result
            ≡ (step_in (decoding.Control (numbers_of numbers)) byte self.old.exact).told }
        ensures next { read_by self.new
            ≡ (step_in (decoding.Control (numbers_of numbers)) byte self.old.exact).next }
    {
        if is_last(byte) {
            self.exact = self.exact || numbers.names_event();
            self.tell(numbers.meaning(byte, self.exact))
        } else if is_text(byte) {
            self.read(control_with(numbers, byte))
        } else {
            self.alone(byte)
        }
    }

    fn in_answer(&mut self, flags: u16, byte: u8) -> Option<Signal>
        ensures told { result ≡ (step_in (decoding.Answer flags) byte self.old.exact).told }
        ensures next { read_by self.new
            ≡ (step_in (decoding.Answer flags) byte self.old.exact).next }
    {
        if is_last(byte) {
            self.exact = self.exact || byte == b'u' && reports_events(flags);
            self.tell(None)
        } else if is_text(byte) {
            self.read(answer_with(flags, byte))
        } else {
            self.alone(byte)
        }
    }

    fn in_foreign(&mut self, byte: u8) -> Option<Signal>
        ensures told { result ≡ (step_in decoding.Foreign byte self.old.exact).told }
        ensures next { read_by self.new ≡ (step_in decoding.Foreign byte self.old.exact).next }
    {
        if is_last(byte) {
            self.tell(None)
        } else if is_text(byte) {
            self.read(Mode::Foreign)
        } else {
            self.alone(byte)
        }
    }

    /// Keeps an incomplete sequence.
    fn read(&mut self, mode: Mode) -> Option<Signal>
        ensures told { result ≡ None }
        ensures next { read_by self.new ≡ (decoding.reads (reading_of mode) self.old.exact).next }
    {
        self.mode = mode;
        None
    }

    /// Completes a sequence.
    fn tell(&mut self, signal: Option<Signal>) -> Option<Signal>
        ensures told { result ≡ signal }
        ensures next { read_by self.new ≡ (decoding.tells signal self.old.exact).next }
    {
        self.mode = Mode::Ready;
        signal
    }
}

impl Default for Decoder {
    ghost is_default = { λ d. read_by d ≡ decoding.nothing_read };

    fn default() -> Self {
        Decoder::new()
    }
}

/// Returns the signal of a byte that is a character.
fn character(byte: u8) -> Option<Signal>
    ensures { result ≡ character byte }
{
    match byte {
        CONTROL_C => Some(Signal::Quit),
        CONTROL_D => Some(Signal::GiveUp),
        CONTROL_L => Some(Signal::Repaint),
        _ => told_of(key_of(u16::from(byte)), 0, false),
    }
}

/// Returns the mode after a byte of a control sequence that does not end it.
fn control_with(numbers: Numbers, byte: u8) -> Mode
    ensures { reading_of result ≡ control_with byte (numbers_of numbers) }
{
    match byte {
        b'0'..=b'9' => Mode::Control(numbers.with_number(byte)),
        b':' => Mode::Control(numbers.next_part()),
        b';' => Mode::Control(numbers.next_field()),
        b'?' if numbers.is_blank() => Mode::Answer(0),
        _ => Mode::Foreign,
    }
}

/// Returns the mode after a byte of an answer that does not end it.
fn answer_with(flags: u16, byte: u8) -> Mode
    ensures { reading_of result ≡ answer_with byte flags }
{
    match byte {
        b'0'..=b'9' => Mode::Answer(with_digit(flags, byte)),
        _ => Mode::Foreign,
    }
}

/// Returns whether a terminal that answers these flags reports event types, and so releases: flag 2.
fn reports_events(flags: u16) -> bool
    ensures { result ≡ reports_events flags }
{
    flags / 2 % 2 == 1
}

/// Returns whether a sequence may have this byte.
fn is_text(byte: u8) -> bool
    ensures { result ≡ is_text byte }
{
    byte >= b' ' && byte <= b'~'
}

/// Returns whether the byte ends a control sequence.
fn is_last(byte: u8) -> bool
    ensures { result ≡ is_last byte }
{
    byte >= b'@' && byte <= b'~'
}
