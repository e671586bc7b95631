//! The lines below the picture and its row.

ghost use Rattle.std.specs.Prelude.{◌≡◌};

use crate::console::Console;
use crate::desk::is_written;
use arrayvec::ArrayVec;
use c8_game::Lines;
use c8_terminal::rows_of_line;
use std::io::Write;

/// The most bytes that move the cursor to a row and clear it.
const LONGEST_MOVE: usize = 32;

/// Let the terminal wrap a long line, and no more.
const WRAP: &[u8] = b"\x1b[?7h";

const WRAP_NO_MORE: &[u8] = b"\x1b[?7l";

/// Writes lines on a console below the picture, from a row on: those for which it has rows. Returns the next row, and whether
/// all was written.
pub(crate) fn write_lines<C: Console>(console: &mut C, lines: &[u8], first: usize) -> (usize, bool)
    ensures { C.typed console.new ≡ C.typed console.old }
{
    let (columns, last) = (console.columns(), console.rows());
    let (mut row, mut is_whole) = (first, true);
    for line in Lines::new(lines) {
        let next = row.saturating_add(rows_of_line(line, columns));
        if next <= last.saturating_add(1) && next > row {
            is_whole = write_line(console, line, row, next.saturating_sub(row) > 1) && is_whole;
            row = next;
        }
    }
    (row, is_whole)
}

/// Writes a line at a row, and returns whether that succeeded.
fn write_line<C: Console>(console: &mut C, line: &[u8], row: usize, is_wrapped: bool) -> bool
    ensures { C.typed console.new ≡ C.typed console.old }
{
    let mut start = ArrayVec::<u8, LONGEST_MOVE>::new();
    let _ = write!(start, "\x1b[{row};1H\x1b[K");
    let (wrap, unwrap): (&[u8], &[u8]) = if is_wrapped {
        (WRAP, WRAP_NO_MORE)
    } else {
        (&[], &[])
    };
    let is_moved = is_written(console, start.as_slice());
    let is_on = is_written(console, wrap);
    let is_there = is_written(console, line);
    let is_off = is_written(console, unwrap);
    is_moved && is_on && is_there && is_off
}
