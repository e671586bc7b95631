//! The screen of a CHIP-8 machine: 64 columns and 32 rows of points, each lit or dark.
//!
//! Contracts see a screen as the set of its lit points, `points_of` in `specs/Points.antt`. They do not depend on how
//! the rows are stored.
#![tactic(auto)]

ghost use Rattle.std.specs.Prelude.{◌≡◌, ℕ, ◌%◌, ◌<◌, ◌==◌, not, bit_and, bit_xor, length, slice_index};
ghost use Rattle.c8_screen.specs.checked.Strip.{strip};

/// The number of points in a row.
pub const WIDTH: u8 = 64;

/// The number of rows of a screen.
pub const HEIGHT: u8 = 32;

/// A screen of 32 rows of 64 points. Column 0 is leftmost, row 0 uppermost.
#[derive(Clone, Copy, Debug, PartialEq, Eq)]
pub struct Screen {
    /// One number a row; its highest bit is column 0.
    rows: [u64; 32],
}

impl Screen {
    ghost use Rattle.c8_screen.specs.Points.{points_of, points_in, no_points, row_has, sprite, clipped, exclusive_or, meets};

    /// Makes a dark screen.
    pub fn new() -> Self
        ensures { points_of result ≡ no_points }
    {
        Screen { rows: [0; 32] }
    }

    /// Makes the screen with these rows; bit 63 of a row is column 0.
    pub fn of_rows(rows: &[u64; 32]) -> Self
        ensures { points_of result ≡ points_in rows.now }
    {
        Screen { rows: *rows }
    }

    /// Turns every point off.
    pub fn clear(&mut self)
        ensures { points_of self.new ≡ no_points }
    {
        *self = Screen::new();
    }

    /// Returns whether the point in column `x` of row `y` is lit.
    pub fn lit(&self, x: u8, y: u8) -> bool
        requires column { x < WIDTH }
        requires row { y < HEIGHT }
        ensures { result ≡ points_of self.now x y }
    {
        (self.rows[usize::from(y)] >> (63 - x)) & 1 == 1
    }

    /// Returns the 64 points of row `y`; bit 63 is column 0.
    pub fn row(&self, y: u8) -> &u64
        requires { y < HEIGHT }
        ensures { (x : ℕ) → x < WIDTH → row_has result.now x ≡ points_of self.now x y }
    {
        &self.rows[usize::from(y)]
    }

    /// Draws a sprite by exclusive or, and returns whether it turned a lit point off (a collision).
    ///
    /// Each byte is a row of 8 points, its highest bit leftmost; the first byte is the uppermost row. The upper left
    /// point is in column `x` modulo 64 of row `y` modulo 32. Points beyond the right or the lower edge are clipped.
    pub fn draw(&mut self, x: u8, y: u8, bytes: &[u8]) -> bool
        ensures points { points_of self.new ≡ exclusive_or (points_of self.old)
            (clipped (sprite (length bytes.now) (slice_index bytes.now) (x % 64) (y % 32))) }
        ensures put_out { result ≡ meets (points_of self.old)
            (clipped (sprite (length bytes.now) (slice_index bytes.now) (x % 64) (y % 32))) }
    {
        let left = x % 64;
        let top = usize::from(y % 32);
        let count = bytes.len().min(32 - top);
        let mut met = false;
        for k in 0..count {
            met |= draw_row(&mut self.rows[top + k], strip(bytes[k], left));
        }
        met
    }
}

impl Default for Screen {
    ghost use Rattle.c8_screen.specs.Points.{points_of, no_points};

    ghost is_default = { λ s. points_of s ≡ no_points };

    fn default() -> Self {
        Screen::new()
    }
}

/// Returns the row with the 8 points of a byte, the leftmost in column `left`, clipped at column 63.
#[inline(always)]
fn strip(byte: u8, left: u8) -> u64
    requires { left < 64 }
    ensures { result ≡ strip byte left }
{
    (u64::from(byte) << 56) >> left
}

/// Flips the points of a row that the strip has, and returns whether one of them was lit.
#[inline(always)]
fn draw_row(row: &mut u64, strip: u64) -> bool
    ensures row { row.new ≡ bit_xor row.old strip }
    ensures met { result ≡ not (bit_and row.old strip == 0) }
{
    let met = *row & strip != 0;
    *row ^= strip;
    met
}
