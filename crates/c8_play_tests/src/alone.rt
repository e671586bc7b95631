//! A game of one person: when its frames begin, what they paint, and what ends the game.

ghost use Rattle.std.specs.Prelude.{◌≤◌};

use crate::console::{Log, Marks, Sent, Still, Written};
use c8_game::Game;
use c8_play::{Desk, Tempo, play_alone};
use c8_terminal::{Chime, KeyRow};
use c8_texts::{Played, play};
use std::alloc::Global;
use std::io::Write;

/// The first frame draws four points in the upper left corner; nothing is drawn after that.
pub const DRAWS: &[u8] =
    b"players 2\nipf 10\nframes 30\ndelay 0\nwindow 8\nseed 0\nmask1 0020\nmask2 2000\ncode a206d0011204f000\n";

/// The row below the picture: the letters of the masks.
const KEYS: &[u8] = b"\x1b[17;1H\x1b[K1: keys w  2: keys r  Escape ends";

/// In frame 2 a person repaints the whole screen.
static REPAINT: [Sent; 1] = [(2, b"\x0c")];

/// The bytes that paint the whole screen of that game.
pub fn whole(alloc: Global) -> Vec<u8> {
    let mut text = Vec::new(alloc);
    for row in 1..17 {
        let _ = write!(text, "\x1b[{row};1H");
        for column in 0..64 {
            let cell = if row == 1 && column < 4 { "▀" } else { " " };
            let _ = text.write_all(cell.as_bytes());
        }
    }
    text
}

/// What is seen when five frames of the game are played at this many a second.
fn seen_at(alloc: Global, game: &Game, rate: u8) -> Log
    requires { 1 ≤ rate }
{
    let clock = Still::new();
    let mut log = Log::new(alloc);
    let console = Written::new(&clock, &REPAINT, &mut log);
    let mut desk = Desk::new(console, Tempo { rate, hold: 9 });
    let row = KeyRow::new(game, DRAWS, 64);
    let _played = play_alone(game, &mut desk, row, Chime::new(true), 5);
    let _lateness = desk.end();
    log
}

/// Whether frames begin at these microseconds, and the screen is painted whole in the first one and when the person
/// repaints it.
fn is_painted(alloc: Global, rate: u8, times: [u64; 5]) -> bool
    requires { 1 ≤ rate }
{
    let Ok(game) = Game::read(alloc, DRAWS) else {
        return false;
    };
    let log = seen_at(alloc, &game, rate);
    let (mut wanted, again) = (whole(alloc), whole(alloc));
    let _ = wanted.extend_from_slice(KEYS);
    let _ = wanted.extend_from_slice(again.as_slice());
    let _ = wanted.extend_from_slice(KEYS);
    log.begun.as_slice() == times.as_slice() && log.drawn.as_slice() == wanted.as_slice()
}

#[test]
fn frames_begin_by_the_clock_and_are_painted_once(rt: HostRuntime) {
    let alloc = rt.alloc();
    assert!(rt; is_painted(alloc, 60, [0, 16_666, 33_333, 50_000, 66_666]));
    assert!(rt; is_painted(alloc, 20, [0, 50_000, 100_000, 150_000, 200_000]));
    assert!(rt; is_painted(alloc, 1, [0, 1_000_000, 2_000_000, 3_000_000, 4_000_000]));
}

/// V0 counts the loops, V1 those in which key 5 is down, V3 those in which key 13 is.
const COUNTS: &[u8] =
    b"players 2\nipf 10\nframes 30\ndelay 0\nwindow 8\nseed 0\nmask1 0020\nmask2 2000\ncode 6205640de2a17101e4a1730170011204\n";

/// The held keys of each frame: key 5 is struck in frame 3, and key 13, the other player's, in frame 20. A stroke
/// counts for 9 frames.
const LINES: &[u8] =
    b"0000 0000\n0000 0000\n0000 0000\n0020 0000\n0020 0000\n0020 0000\n0020 0000\n0020 0000\n0020 0000\n0020 0000\n0020 0000\n0020 0000\n0000 0000\n0000 0000\n0000 0000\n0000 0000\n0000 0000\n0000 0000\n0000 0000\n0000 0000\n0000 2000\n0000 2000\n0000 2000\n0000 2000\n0000 2000\n0000 2000\n0000 2000\n0000 2000\n0000 2000\n0000 0000\n";

/// How many bytes a line has.
const LINE: usize = 10;

/// The first lines.
fn lines(count: usize) -> &'static [u8] {
    LINES.get(..count.saturating_mul(LINE)).unwrap_or(b"")
}

static BOTH: [Sent; 2] = [(3, b"w"), (20, b"r")];

/// The first stroke as an arrow, which a read splits after its escape.
static CUT: [Sent; 3] = [(2, b"\x1b"), (3, b"[A"), (20, b"r")];

/// Control-C in frame 11, or a terminal that hangs up: this frame is the last.
static STOPPED: [Sent; 2] = [(3, b"w"), (11, b"\x03")];

static HUNG_UP: [Sent; 2] = [(3, b"w"), (11, b"")];

/// An escape alone ends the game once nothing has come for 25 milliseconds.
static ESCAPE: [Sent; 2] = [(3, b"w"), (10, b"\x1b")];

/// Plays with these keys at this many frames a second, at most `asked` frames. Returns what was played, and how often
/// the console was used.
fn played_by(
    alloc: Global,
    game: &Game,
    rate: u8,
    sent: &'static [Sent],
    asked: u64,
) -> (Played, Marks)
    requires { 1 ≤ rate }
{
    let clock = Still::new();
    let mut log = Log::new(alloc);
    let mut desk = Desk::new(
        Written::new(&clock, sent, &mut log),
        Tempo { rate, hold: 9 },
    );
    let row = KeyRow::new(game, COUNTS, 64);
    let played = play_alone(game, &mut desk, row, Chime::new(true), asked);
    let _lateness = desk.end();
    (played, log.marks)
}

/// Whether this many frames are played, with the machine that the same number of key lines make. The console must be
/// prepared once, written on twice, because the program draws nothing but its first picture and the row, and restored once.
fn is_played(alloc: Global, rate: u8, sent: &'static [Sent], asked: u64, frames: usize) -> bool
    requires { 1 ≤ rate }
{
    let Ok(game) = Game::read(alloc, COUNTS) else {
        return false;
    };
    let Ok(wanted) = play(&game, lines(frames)) else {
        return false;
    };
    let (found, marks) = played_by(alloc, &game, rate, sent, asked);
    found.frames as usize == frames && found.machine == wanted.machine && marks == (1, 2, 1, 0)
}

#[test]
fn strokes_make_what_key_lines_do(rt: HostRuntime) {
    let alloc = rt.alloc();
    assert!(rt; is_played(alloc, 60, &BOTH, 1_000, 30));
    assert!(rt; is_played(alloc, 60, &CUT, 1_000, 30));
    // as many frames as the caller asks for
    assert!(rt; is_played(alloc, 60, &BOTH, 12, 12));
    assert!(rt; is_played(alloc, 60, &STOPPED, 1_000, 12));
    assert!(rt; is_played(alloc, 60, &HUNG_UP, 1_000, 12));
    assert!(rt; is_played(alloc, 60, &ESCAPE, 1_000, 13));
    assert!(rt; is_played(alloc, 120, &ESCAPE, 1_000, 14));
    assert!(rt; is_played(alloc, 20, &ESCAPE, 1_000, 12));
}
