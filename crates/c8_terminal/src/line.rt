//! One row of text: the bytes that move the cursor there, and 64 cells.
ghost use Rattle.std.specs.Prelude.{◌≡◌, ◌+◌, ◌<◌, ◌≤◌, ◌++◌, length};
ghost use Rattle.arrayvec.specs.ArrayVec.{array_vec_len};
ghost use Rattle.c8_screen.specs.Points.{points_of};
ghost use Rattle.c8_terminal.specs.Painting.{cell, move, line};

use arrayvec::ArrayVec;
use c8_screen::{Screen, WIDTH};

/// The number of text rows of a screen.
pub const TEXT_ROWS: u8 = 16;

/// The most bytes of a row of text: 7 to move the cursor, and 3 for each cell.
pub const LONGEST_LINE: usize = 199;

/// The most bytes of a painting.
pub const LONGEST_PAINTING: usize = 3184;

const BLANK: [u8; 1] = [b' '];

const UPPER: [u8; 3] = [0xe2, 0x96, 0x80];

const LOWER: [u8; 3] = [0xe2, 0x96, 0x84];

const FULL: [u8; 3] = [0xe2, 0x96, 0x88];

/// Appends text row `y` of a screen.
pub(crate) fn put_line(screen: &Screen, y: u8, out: &mut ArrayVec<u8, LONGEST_PAINTING>)
    requires row { y < TEXT_ROWS }
    requires room { array_vec_len out.old + LONGEST_LINE ≤ LONGEST_PAINTING }
    ensures bytes { out.new.items ≡ out.old.items ++ line (points_of screen.now) y }
    ensures size { array_vec_len out.new ≤ array_vec_len out.old + LONGEST_LINE }
{
    put_move(y + 1, out);
    for x in 0..WIDTH {
        put(cell(screen.lit(x, 2 * y), screen.lit(x, 2 * y + 1)), out);
    }
}

/// Appends the bytes that move the cursor to the first column of a row, counted from 1.
fn put_move(row: u8, out: &mut ArrayVec<u8, LONGEST_PAINTING>)
    requires row { row < 100 }
    requires room { array_vec_len out.old + 7 ≤ LONGEST_PAINTING }
    ensures bytes { out.new.items ≡ out.old.items ++ move row }
    ensures size { array_vec_len out.new ≤ array_vec_len out.old + 7 }
{
    if row < 10 {
        put(&[0x1b, b'[', b'0' + row, b';', b'1', b'H'], out);
    } else {
        put(
            &[
                0x1b,
                b'[',
                b'0' + row / 10,
                b'0' + row % 10,
                b';',
                b'1',
                b'H',
            ],
            out,
        );
    }
}

/// Returns the character of two points, one above the other.
fn cell(upper: bool, lower: bool) -> &'static [u8]
    ensures { result.now ≡ cell upper lower }
{
    match (upper, lower) {
        (false, false) => &BLANK,
        (true, false) => &UPPER,
        (false, true) => &LOWER,
        (true, true) => &FULL,
    }
}

/// Appends bytes.
fn put(bytes: &[u8], out: &mut ArrayVec<u8, LONGEST_PAINTING>)
    requires { array_vec_len out.old + length bytes.now ≤ LONGEST_PAINTING }
    ensures bytes { out.new.items ≡ out.old.items ++ bytes.now }
    ensures size { array_vec_len out.new ≡ array_vec_len out.old + length bytes.now }
{
    let _extended = out.try_extend_from_slice(bytes);
}
