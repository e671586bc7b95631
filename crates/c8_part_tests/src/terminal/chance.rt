//! Paints 10,000 random screens, one over the other: the terminal shows each of them, and only rows of text that differ
//! are written.
use crate::terminal::terminal::Terminal;
use c8_screen::Screen;
use c8_terminal::Painter;
use rand_pcg::Pcg32;
use rand_pcg::rand_core::SeedableRng;
use rand_pcg::rand_core::utils::{NextWord, next_u64_via_u32};

const SCREENS: u32 = 10_000;

/// How often each kind of change came.
#[derive(Clone, Copy)]
struct Counted {
    same: u32,
    one_line: u32,
    whole: u32,
    forgotten: u32,
}

/// Changes nothing, one point, one row, or all rows.
fn change(numbers: &mut Pcg32, rows: &mut [u64; 32]) {
    let row = (numbers.next_word() % 32) as usize;
    match numbers.next_word() % 8 {
        0 => {}
        1 => {
            for row in rows.iter_mut() {
                *row = next_u64_via_u32(numbers);
            }
        }
        2 => *rows = [0; 32],
        3 => rows[row] = next_u64_via_u32(numbers),
        _ => rows[row] ^= 1 << (numbers.next_word() % 64),
    }
}

/// Returns how many rows of text differ.
fn differing(before: &[u64; 32], rows: &[u64; 32]) -> usize {
    let mut count: usize = 0;
    for y in 0..16usize {
        if before[2 * y] != rows[2 * y] || before[2 * y + 1] != rows[2 * y + 1] {
            count = count.saturating_add(1);
        }
    }
    count
}

/// Returns how many rows of text are written.
fn written(bytes: &[u8]) -> usize {
    bytes.iter().filter(|byte| **byte == 0x1b).count()
}

/// Returns the counts, or the number of the first screen that is not shown right.
fn painted(seed: u64) -> Result<Counted, u32> {
    let mut numbers = Pcg32::seed_from_u64(seed);
    let mut counted = Counted {
        same: 0,
        one_line: 0,
        whole: 0,
        forgotten: 0,
    };
    let mut painter = Painter::new();
    let mut terminal = Terminal::filled('~');
    let mut filler = '~';
    let mut rows = [0; 32];
    let mut fresh = true;
    for n in 0..SCREENS {
        if numbers.next_word() % 64 == 0 {
            painter.forget();
            filler = if filler == '#' { '~' } else { '#' };
            terminal = Terminal::filled(filler);
            fresh = true;
            counted.forgotten = counted.forgotten.saturating_add(1);
        }
        let before = rows;
        change(&mut numbers, &mut rows);
        let screen = Screen::of_rows(&rows);
        painter.paint(&screen);
        let wanted = if fresh { 16 } else { differing(&before, &rows) };
        fresh = false;
        let bytes = painter.bytes();
        if written(bytes) != wanted || bytes.is_empty() != (wanted == 0) {
            return Err(n);
        }
        if !terminal.read(bytes) || !terminal.shows(&screen, filler) {
            return Err(n);
        }
        match wanted {
            0 => counted.same = counted.same.saturating_add(1),
            1 => counted.one_line = counted.one_line.saturating_add(1),
            16 => counted.whole = counted.whole.saturating_add(1),
            _ => {}
        }
    }
    Ok(counted)
}

#[test]
fn each_screen_is_shown(rt: HostRuntime) {
    match painted(20261127) {
        Ok(counted) => {
            assert!(rt; counted.same > 1000);
            assert!(rt; counted.one_line > 4000);
            assert!(rt; counted.whole > 1000);
            assert!(rt; counted.forgotten > 100);
        }
        Err(n) => assert!(rt; false, "screen {n}"),
    }
}
