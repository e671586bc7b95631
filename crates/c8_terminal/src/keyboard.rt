//! Maps keys of the keyboard to keys of the keypad.
ghost use Rattle.std.specs.Prelude.{◌≡◌, ◌<◌};
ghost use Rattle.c8_terminal.specs.Keyboard.{key_in, places, small, key_of, arrow_key};

/// Returns the key of a character, by its place on the left block of the keyboard.
pub(crate) fn key_of(character: u16) -> Option<u8>
    ensures { result ≡ key_of character }
{
    match u8::try_from(small(character)) {
        Ok(character) => key_at(character),
        Err(_) => None,
    }
}

/// Returns the key at the place of a character that is not a capital letter.
fn key_at(character: u8) -> Option<u8>
    ensures { result ≡ key_in places character }
{
    match character {
        b'1' => Some(0x1),
        b'2' => Some(0x2),
        b'3' => Some(0x3),
        b'4' => Some(0xc),
        b'q' => Some(0x4),
        b'w' => Some(0x5),
        b'e' => Some(0x6),
        b'r' => Some(0xd),
        b'a' => Some(0x7),
        b's' => Some(0x8),
        b'd' => Some(0x9),
        b'f' => Some(0xe),
        b'z' => Some(0xa),
        b'x' => Some(0x0),
        b'c' => Some(0xb),
        b'v' => Some(0xf),
        _ => None,
    }
}

/// Turns a capital letter into a small one; other characters stay.
pub(crate) fn small(character: u16) -> u16
    ensures { result ≡ small character }
{
    if character >= 0x41 && character <= 0x5a {
        character + 0x20
    } else {
        character
    }
}

/// Returns the key of an arrow, by the last byte of its sequence.
pub(crate) fn arrow_key(last: u8) -> Option<u8>
    ensures { result ≡ arrow_key last }
{
    match last {
        b'A' => Some(0x5),
        b'B' => Some(0x8),
        b'C' => Some(0x9),
        b'D' => Some(0x7),
        _ => None,
    }
}
