//! The row of text below the picture, and the lines below that: where they stand, and how long they may be.

/// The columns of the narrowest terminal.
pub const NARROWEST: usize = 64;

/// The most columns of a terminal that the row uses.
pub const WIDEST: usize = 200;

/// Moves the cursor to the first column of row 17, below the screen, and clears the row. It comes before the text,
/// because after a text up to the last column the cursor would still be on that column.
pub const CLEAR_ROW: &[u8] = b"\x1b[17;1H\x1b[K";

/// The most bytes of the row, with those that move the cursor and clear the row.
pub const LONGEST_ROW: usize = 210;

/// The most bytes that one frame writes for the row: the row, and a bell.
pub const LONGEST_WRITTEN: usize = LONGEST_ROW + 1;

/// The first row of the terminal below the picture and its row of text, with a row between.
pub const FIRST_ROW: usize = 19;

/// How many rows lines take on a screen of so many columns. A line that is longer is wrapped by the terminal, so that it can be
/// selected as one.
pub fn rows_of(lines: &[u8], columns: usize) -> usize {
    let mut rows: usize = 0;
    for line in lines.split(|byte| *byte == b'\n') {
        rows = rows.saturating_add(rows_of_line(line, columns));
    }
    rows
}

/// How many rows a line takes; an empty one takes none.
pub fn rows_of_line(line: &[u8], columns: usize) -> usize {
    line.len().div_ceil(columns.max(1))
}
