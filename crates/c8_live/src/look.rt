//! The result of a look at the board.
ghost use Rattle.std.specs.Prelude.{◌≡◌, ◌+◌, ◌*◌, ◌/◌, ◌%◌, ◌^◌, ◌<◌};
ghost use Rattle.c8_machine.specs.State.{state};
ghost use Rattle.c8_live.specs.Words.{bits_of};

use c8_digest::Marker;
use c8_machine::Machine;
use std::fmt;
use std::marker::Model;

/// The width of the bits in a word; the count is above them.
const BITS: u32 = 40;

/// How many frames are confirmed, and the first 40 bits of SHA-256 (FIPS 180-4) over the state bytes of the machine
/// after them.
#[derive(Clone, Copy, Debug, PartialEq, Eq)]
pub struct Look {
    count: u32,
    bits: u64,
}

impl Model for Look {
    ghost use Rattle.c8_live.specs.Words.{LookValue};

    ghost Value = { LookValue };

    ghost view = { λ look. record { count = look.count; bits = look.bits } };

    ghost inverse = { λ value. record { count = value.count; bits = value.bits } };
}

impl Look {
    /// Splits a word of the board.
    pub(crate) fn of(word: u64) -> Look
        ensures count { result.count ≡ word / 2 ^ 40 }
        ensures bits { result.bits ≡ word % 2 ^ 40 }
    {
        Look {
            count: (word >> BITS) as u32,
            bits: word % (1 << BITS),
        }
    }

    /// Returns how many frames are confirmed.
    pub fn count(self) -> u32
        ensures { result ≡ self.count }
    {
        self.count
    }

    /// Returns the first 40 bits of SHA-256 over the state bytes of the machine after these frames, as a number with
    /// the first byte of the digest as its most significant one.
    pub fn bits(self) -> u64
        ensures { result ≡ self.bits }
    {
        self.bits
    }
}

/// Writes the count, and the bits as ten hexadecimal digits.
impl fmt::Display for Look {
    fn fmt<W: fmt::Write>(&self, f: &mut fmt::Formatter<W>) -> fmt::Result {
        write!(f, "frames {}, mark {:010x}", self.count, self.bits)
    }
}

/// Returns the word of a machine after `count` frames.
pub(crate) fn word(count: u32, machine: &Machine, marker: &mut Marker) -> u64
    requires { count < 2 ^ 24 }
    ensures { result ≡ count * 2 ^ 40 + bits_of (state machine.now) }
{
    (u64::from(count) << BITS) + bits(machine, marker)
}

/// Returns the first five bytes of the machine's mark, as a number.
fn bits(machine: &Machine, marker: &mut Marker) -> u64
    ensures value { result ≡ bits_of (state machine.now) }
    ensures few { result < 2 ^ 40 }
{
    let [b0, b1, b2, b3, b4, _, _, _] = marker.mark(machine);
    u64::from_be_bytes([0, 0, 0, b0, b1, b2, b3, b4])
}
