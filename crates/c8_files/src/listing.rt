//! A program as a list of instructions.
ghost use Rattle.std.specs.Prelude.{◌≡◌, ℕ, is_some};
ghost use Rattle.c8_machine.specs.checked.Decoding.{instruction_of, register_instruction};

use std::io::Write;
use std::{fmt, io};

/// The address of a program's first byte.
const FIRST_ADDRESS: u16 = 0x200;

/// All instructions in the order of docs/MACHINE.md: the bits of a code that are fixed, their values, and the words of that
/// page, where `%2`, `%3` and `%4` stand for the second, third and last digit of the code.
const FORMS: [(u16, u16, &str); 34] = [
    (0xffff, 0x00e0, "all points off"),
    (
        0xffff,
        0x00ee,
        "go to the last address of the stack and take it off",
    ),
    (0xf000, 0x1000, "go to %2%3%4"),
    (
        0xf000,
        0x2000,
        "put the address after the instruction on the stack, then go to %2%3%4",
    ),
    (0xf000, 0x3000, "skip if V%2 is %3%4"),
    (0xf000, 0x4000, "skip if V%2 is not %3%4"),
    (0xf00f, 0x5000, "skip if V%2 is V%3"),
    (0xf00f, 0x9000, "skip if V%2 is not V%3"),
    (0xf000, 0x6000, "V%2 = %3%4"),
    (0xf000, 0x7000, "V%2 = V%2 + %3%4 modulo 256, with no flag"),
    (0xf00f, 0x8000, "V%2 = V%3"),
    (0xf00f, 0x8001, "V%2 = V%2 OR V%3; then VF = 0"),
    (0xf00f, 0x8002, "V%2 = V%2 AND V%3; then VF = 0"),
    (0xf00f, 0x8003, "V%2 = V%2 XOR V%3; then VF = 0"),
    (
        0xf00f,
        0x8004,
        "V%2 = V%2 + V%3 modulo 256; VF = 1 if the sum is above FF, else 0",
    ),
    (
        0xf00f,
        0x8005,
        "V%2 = V%2 - V%3 modulo 256; VF = 1 if V%2 was at least V%3, else 0",
    ),
    (
        0xf00f,
        0x8006,
        "V%2 = V%3 shifted right by one; VF = the bit shifted out",
    ),
    (
        0xf00f,
        0x8007,
        "V%2 = V%3 - V%2 modulo 256; VF = 1 if V%3 was at least V%2, else 0",
    ),
    (
        0xf00f,
        0x800e,
        "V%2 = V%3 shifted left by one, modulo 256; VF = the bit shifted out",
    ),
    (0xf000, 0xa000, "I = %2%3%4"),
    (0xf000, 0xb000, "go to %2%3%4 + V0"),
    (0xf000, 0xc000, "V%2 = (a random byte) AND %3%4"),
    (0xf000, 0xd000, "draw %4 bytes from I on at (V%2, V%3)"),
    (0xf0ff, 0xe09e, "skip if the key of V%2's low digit is in K"),
    (
        0xf0ff,
        0xe0a1,
        "skip if the key of V%2's low digit is not in K",
    ),
    (0xf0ff, 0xf007, "V%2 = timer"),
    (0xf0ff, 0xf00a, "wait for register %2"),
    (0xf0ff, 0xf015, "timer = V%2"),
    (0xf0ff, 0xf018, "tone = V%2"),
    (0xf0ff, 0xf01e, "I = I + V%2 modulo 4096, with no flag"),
    (
        0xf0ff,
        0xf029,
        "I = the address of the pattern of V%2's low digit",
    ),
    (
        0xf0ff,
        0xf033,
        "store the three decimal digits of V%2 at I, I + 1 and I + 2",
    ),
    (
        0xf0ff,
        0xf055,
        "store V0 to V%2 from I on; then I = I + %2 + 1",
    ),
    (
        0xf0ff,
        0xf065,
        "load V0 to V%2 from I on; then I = I + %2 + 1",
    ),
];

/// A code of two bytes, and its address.
#[derive(Clone, Copy)]
struct Line {
    address: u16,
    code: u16,
}

/// Writes a program to `out`: a line for each two bytes, with their address, their code and what the machine does there
/// in the words of docs/MACHINE.md. A `!` marks a code at which the machine stops: one that is no instruction, or the
/// call of machine language. A last byte alone has 00 after it, as in memory. The error is the writer's.
pub fn write_listing<W: Write>(program: &[u8], out: &mut W) -> io::Result<()> {
    let mut address = FIRST_ADDRESS;
    for bytes in program.chunks(2) {
        let code = match bytes {
            [high, low, ..] => u16::from_be_bytes([*high, *low]),
            [high] => u16::from_be_bytes([*high, 0]),
            [] => 0,
        };
        writeln!(out, "{}", Line { address, code })?;
        address = address.wrapping_add(2);
    }
    Ok(())
}

/// Returns whether a code has an instruction. At any other the machine stops.
#[tactic(auto, unfolding(c8_machine::specs::checked::Decoding::instruction_by, c8_machine::specs::checked::Decoding::system_instruction, c8_machine::specs::checked::Decoding::arithmetic_instruction, c8_machine::specs::checked::Decoding::key_instruction, c8_machine::specs::checked::Decoding::register_instruction))]
fn is_instruction(code: u16) -> bool
    ensures { result ≡ is_some (instruction_of code) }
{
    let last = code % 0x10;
    let value = code % 0x100;
    match code / 0x1000 {
        0x0 => code == 0x00e0 || code == 0x00ee,
        0x5 | 0x9 => last == 0,
        0x8 => last <= 7 || last == 0xe,
        0xe => value == 0x9e || value == 0xa1,
        0xf => is_register_value(value),
        _ => true,
    }
}

/// Returns whether FX followed by this byte is an instruction.
#[tactic(auto, unfolding(c8_machine::specs::checked::Decoding::register_instruction))]
fn is_register_value(value: u16) -> bool
    ensures { (x : ℕ) → result ≡ is_some (register_instruction x value) }
{
    matches!(
        value,
        0x07 | 0x0a | 0x15 | 0x18 | 0x1e | 0x29 | 0x33 | 0x55 | 0x65
    )
}

/// Writes the address, the code and the words.
impl fmt::Display for Line {
    fn fmt<W: fmt::Write>(&self, f: &mut fmt::Formatter<W>) -> fmt::Result {
        let (address, code) = (self.address, self.code);
        write!(f, "{address:03X} {code:04X} ")?;
        if is_instruction(code) {
            f.write_str("  ")?;
            write_words(f, code)
        } else if code < 0x1000 {
            f.write_str("! stop 1: the call of machine language")
        } else {
            f.write_str("! stop 1: no instruction")
        }
    }
}

/// Writes what the instruction with this code does.
fn write_words<W: fmt::Write>(f: &mut fmt::Formatter<W>, code: u16) -> fmt::Result {
    let Some((_, _, words)) = FORMS.iter().find(|(mask, fixed, _)| code & *mask == *fixed) else {
        return Ok(());
    };
    let mut is_digit = false;
    for letter in words.chars() {
        match letter {
            '%' => is_digit = true,
            '2' if is_digit => write!(f, "{:X}", code / 0x100 % 0x10)?,
            '3' if is_digit => write!(f, "{:X}", code / 0x10 % 0x10)?,
            '4' if is_digit => write!(f, "{:X}", code % 0x10)?,
            _ => f.write_char(letter)?,
        }
        is_digit = letter == '%';
    }
    Ok(())
}
