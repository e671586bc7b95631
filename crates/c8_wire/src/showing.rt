//! SHOW and SEEN, the datagrams for watchers, borrowed from their bytes.
ghost use Rattle.std.specs.Prelude.{◌≡◌, ◌≤◌, ◌<◌, ◌+◌, ◌*◌, ◌==◌, length, Some};
ghost use Rattle.std.specs.List.{slice_get};
ghost use Rattle.std.proofs.Props.{props};
ghost use Rattle.c8_wire.specs.declared.kinds.DatagramKind.TheVariants as kinds;
ghost use Rattle.c8_wire.specs.Reading.{number_at, packet_at, row_at};
ghost use Rattle.c8_wire.specs.Spelling.{Spells};

use crate::layout::{ROW_LENGTH, ROWS_AT, SEEN_ACK_AT, SHOW_COUNT_AT, SHOW_START_AT};
use crate::numbers::{u16_at, u32_at};
use crate::sizes::MOST_ROWS;
use c8_game::{Keys, MOST_FRAMES, Row};

/// A SHOW datagram: player one sends rows of the match to a watcher.
#[derive(Clone, Copy, Debug)]
pub struct Show<'a> {
    pub(crate) bytes: &'a [u8],
    pub(crate) ghost few: { number_at 28 2 bytes.now ≤ 16 },
    pub(crate) ghost size: { length bytes.now ≡ 30 + 8 * number_at 28 2 bytes.now },
    pub(crate) ghost spelled: { Spells bytes.now (packet_at kinds.Show bytes.now) } by { Prim.hlevel props },
}

impl<'a> Show<'a> {
    ghost use Rattle.c8_wire.specs.Lent.{show_of, shown};

    /// Returns the frame of the first row.
    pub fn start(&self) -> u32
        ensures value { result ≡ (show_of self.now).start }
        ensures within { result + length (show_of self.now).rows ≤ MOST_FRAMES }
    {
        u32_at(self.bytes, SHOW_START_AT)
    }

    /// Returns the rows, borrowed from the received bytes from byte 30 on: at most 16.
    pub fn rows(&self) -> ShownRows<'a>
        ensures rows { shown result ≡ (show_of self.now).rows }
        ensures few { length (shown result) ≤ MOST_ROWS }
    {
        ShownRows {
            bytes: self.bytes,
            count: usize::from(u16_at(self.bytes, SHOW_COUNT_AT)),
        }
    }
}

/// The rows of a SHOW. `get` decodes one from the bytes.
#[derive(Clone, Copy, Debug)]
pub struct ShownRows<'a> {
    pub(crate) bytes: &'a [u8],
    pub(crate) count: usize,
    pub(crate) ghost few: { count ≤ 16 },
    pub(crate) ghost whole: { length bytes.now ≡ 30 + 8 * count },
}

impl<'a> ShownRows<'a> {
    ghost use Rattle.c8_wire.specs.Lent.{shown};

    /// Returns how many rows there are, 0 to 16.
    pub fn len(&self) -> usize
        ensures count { result ≡ length (shown self.now) }
        ensures few { result ≤ MOST_ROWS }
    {
        self.count
    }

    pub fn is_empty(&self) -> bool
        ensures { result ≡ (length (shown self.now) == 0) }
    {
        self.count == 0
    }

    /// Returns the row at a place, from 0.
    #[tactic(auto, using(crate::proofs::ShowLemmas::length_of_rows))]
    pub fn get(&self, place: usize) -> Row
        requires { place < length (shown self.now) }
        ensures { slice_get (shown self.now) place ≡ Some result }
    {
        row_at(self.bytes, ROWS_AT + ROW_LENGTH * place)
    }
}

/// Decodes the row at a place: the key sets of four players, two bytes each.
fn row_at(bytes: &[u8], place: usize) -> Row
    requires { place + ROW_LENGTH ≤ length bytes.now }
    ensures { result ≡ row_at place bytes.now }
{
    Row {
        sets: [
            Keys(u16_at(bytes, place)),
            Keys(u16_at(bytes, 2 + place)),
            Keys(u16_at(bytes, 4 + place)),
            Keys(u16_at(bytes, 6 + place)),
        ],
    }
}

/// A SEEN datagram: a watcher acknowledges rows to player one.
#[derive(Clone, Copy, Debug)]
pub struct Seen<'a> {
    pub(crate) bytes: &'a [u8],
    pub(crate) ghost size: { length bytes.now ≡ 28 },
    pub(crate) ghost spelled: { Spells bytes.now (packet_at kinds.Seen bytes.now) } by { Prim.hlevel props },
}

impl<'a> Seen<'a> {
    ghost use Rattle.c8_wire.specs.Lent.{seen_of};

    /// Returns how many rows the watcher has.
    pub fn ack(&self) -> u32
        ensures value { result ≡ seen_of self.now }
        ensures most { result ≤ MOST_FRAMES }
    {
        u32_at(self.bytes, SEEN_ACK_AT)
    }
}
