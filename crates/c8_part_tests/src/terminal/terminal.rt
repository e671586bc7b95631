//! A test terminal of 17 rows of 64 cells, which knows characters and one command. The standard library decodes the
//! characters. It refuses everything else.
use c8_screen::Screen;

const ROWS: usize = 17;

const COLUMNS: usize = 64;

const CELLS: usize = 1088;

/// The part of a command that has been read.
#[derive(Clone, Copy)]
enum Command {
    None,
    Escape,
    Row(u32),
    Column(u32, u32),
}

/// A terminal. Rows and columns are counted from 0.
#[derive(Drop)]
pub(crate) struct Terminal {
    row: usize,
    column: usize,
    cells: [char; CELLS],
}

impl Terminal {
    /// Makes a terminal that shows one character everywhere.
    pub(crate) fn filled(filler: char) -> Terminal {
        Terminal {
            row: 5,
            column: 7,
            cells: [filler; CELLS],
        }
    }

    /// Reads bytes. Returns whether they are whole characters and commands that it knows.
    pub(crate) fn read(&mut self, bytes: &[u8]) -> bool {
        let Ok(text) = str::from_utf8(bytes) else {
            return false;
        };
        let mut command = Command::None;
        for c in text.chars() {
            match self.take(command, c) {
                Some(next) => command = next,
                None => return false,
            }
        }
        matches!(command, Command::None)
    }

    /// Returns whether the upper 16 rows show a screen, and the last row one character.
    pub(crate) fn shows(&self, screen: &Screen, filler: char) -> bool {
        self.cells == picture(screen, filler)
    }

    fn take(&mut self, command: Command, c: char) -> Option<Command> {
        match (command, c) {
            (Command::None, '\x1b') => Some(Command::Escape),
            (Command::None, _) => self.print(c),
            (Command::Escape, '[') => Some(Command::Row(0)),
            (Command::Row(row), ';') => Some(Command::Column(row, 0)),
            (Command::Row(row), _) => Some(Command::Row(with_digit(row, c)?)),
            (Command::Column(row, column), 'H') => self.go(row, column),
            (Command::Column(row, column), _) => Some(Command::Column(row, with_digit(column, c)?)),
            _ => None,
        }
    }

    fn print(&mut self, c: char) -> Option<Command> {
        if c < ' ' || self.row >= ROWS || self.column >= COLUMNS {
            return None;
        }
        self.cells[self.row * COLUMNS + self.column] = c;
        self.column += 1;
        Some(Command::None)
    }

    fn go(&mut self, row: u32, column: u32) -> Option<Command> {
        self.row = row.checked_sub(1)? as usize;
        self.column = column.checked_sub(1)? as usize;
        Some(Command::None)
    }
}

/// Appends a digit to a number.
fn with_digit(number: u32, c: char) -> Option<u32> {
    number.checked_mul(10)?.checked_add(c.to_digit(10)?)
}

/// Returns the cells of a terminal that shows a screen, above a row of one character.
fn picture(screen: &Screen, filler: char) -> [char; CELLS] {
    let mut cells = [filler; CELLS];
    for y in 0..16u8 {
        for x in 0..64u8 {
            cells[usize::from(y) * COLUMNS + usize::from(x)] = match (
                screen.lit(x, 2 * y),
                screen.lit(x, 2 * y + 1),
            ) {
                (false, false) => ' ',
                (true, false) => '▀',
                (false, true) => '▄',
                (true, true) => '█',
            };
        }
    }
    cells
}
