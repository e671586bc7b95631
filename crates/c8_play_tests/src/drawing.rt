//! The pictures of a watched match, and their times by a clock of the test.
ghost use Rattle.std.specs.Prelude.{◌≡◌};

use c8_command::{Terminals, Threaded, command_of};
use c8_game::Game;
use c8_terminal::{ENTER, LEAVE};
use c8_transport::{Losses, Relaying, Traffic, Wire, WireFailed};
use c8_watch::{WATCH, WatchAsked, WatchRow, watch_given, watch_on};
use c8_wire::{Seat, Watcher};
use std::alloc::Global;
use std::io::Write;
use std::sync::Wait;
use std::sync::atomic::{AtomicU64, Ordering};
use std::test::Fail;
use std::thread::Threads;
use std::time::{Clock, Duration};
use std::{fs, io};

/// Each frame flips one point of the uppermost row, from left to right, and then from the left again.
pub(crate) const GAME: &str =
    "players 2\nipf 3\nframes 5000\ndelay 0\nwindow 8\nseed 0\nmask1 ffff\nmask2 ffff\ncode a208d0117001120280\n";

/// A runtime whose sleeps do not wait, and whose clock counts each of them as a millisecond.
#[derive(Drop)]
struct Counted<'r, R> {
    rt: &'r R,
    millis: AtomicU64,
}

impl<'r, R: Wait> Wait for Counted<'r, R> {}

impl<'r, R: Threads> Threads for Counted<'r, R> {}

impl<'r, R: AllocGlobal> Alloc for Counted<'r, R> {
    type A = Global;

    fn alloc(&self) -> Global {
        self.rt.alloc()
    }
}

impl<'r, R: Clock> Clock for Counted<'r, R> {
    fn monotonic(&self) -> io::Result<Duration> {
        Ok(Duration::from_millis(self.millis.load(Ordering::SeqCst)))
    }

    fn since_1970(&self) -> io::Result<Duration> {
        self.monotonic()
    }

    fn sleep(&self, duration: Duration) {
        if duration == Duration::from_millis(1) {
            self.millis.fetch_add(1, Ordering::SeqCst);
        } else {
            self.rt.sleep(duration);
        }
    }
}

/// A wire on which one more row comes each turn, with no key held.
#[derive(Drop)]
pub(crate) struct Shows {
    show: [u8; 38],
    frame: u32,
    has_come: bool,
    traffic: Traffic,
}

impl Shows {
    /// The rows of a match in room 3, for seat 5.
    pub(crate) fn new(game: &Game) -> Shows {
        let mut show = [0; 38];
        show[..4].copy_from_slice(b"C8\x01\x07");
        show[4..12].copy_from_slice(&game.session(3).to_be_bytes());
        show[12..16].copy_from_slice(&[1, 5, 0, 14]);
        show[19] = 1;
        show[29] = 1;
        Shows {
            show,
            frame: 0,
            has_come: false,
            traffic: Traffic::new(),
        }
    }
}

impl Wire for Shows {
    ghost sent = { λ shows. shows.traffic.sent.items };

    ghost received = { λ shows. shows.traffic.received.items };

    fn send(&mut self, _: Seat, _: &[u8]) -> Result<(), WireFailed> {
        Ok(())
    }

    fn receive(&mut self, packet: &mut [u8]) -> Result<Option<usize>, WireFailed> {
        self.has_come = !self.has_come;
        if !self.has_come {
            return Ok(None);
        }
        self.show[24..28].copy_from_slice(&self.frame.to_be_bytes());
        self.frame = self.frame.saturating_add(1);
        let size = self.show.len().min(packet.len());
        packet[..size].copy_from_slice(&self.show[..size]);
        self.traffic.gave(&packet[..size]);
        Ok(Some(size))
    }
}

/// The options of that match, watched from seat 5 for this many turns, or until enough frames were seen.
pub(crate) fn asked_for(turns: u64, stop: Option<u64>, screen: bool) -> WatchAsked<'static> {
    WatchAsked {
        game: "",
        seat: Watcher { number: 5 },
        local: "",
        remote: "",
        has_relay: false,
        secret: None,
        room: 3,
        turns,
        stop,
        screen,
        cast: None,
        explain: false,
    }
}

/// Keeps the written text, and where each write ends. One write fails, and is not kept.
#[derive(Drop)]
struct Pages {
    text: Vec<u8>,
    ends: Vec<usize>,
    /// How many writes come before the one that fails.
    until_failure: u64,
}

impl Pages {
    fn new(alloc: Global, until_failure: u64) -> Pages {
        Pages {
            text: Vec::new(alloc),
            ends: Vec::new(alloc),
            until_failure,
        }
    }
}

impl Write for Pages {
    fn write(&mut self, buf: &[u8]) -> io::Result<usize> {
        if self.until_failure == 0 {
            self.until_failure = u64::MAX;
            return Err(io::ErrorKind::StorageFull.into());
        }
        self.until_failure -= 1;
        self.text.extend_from_slice(buf)?;
        self.ends.push(self.text.len())?;
        Ok(buf.len())
    }

    fn flush(&mut self) -> io::Result<()> {
        Ok(())
    }
}

/// The screen after this many frames: all rows of text, or only the uppermost.
fn picture(alloc: Global, frames: u64, is_whole: bool) -> Vec<u8> {
    let rows = if is_whole { 16 } else { 1 };
    let mut text = Vec::new(alloc);
    for row in 1..rows + 1 {
        let _ = write!(text, "\x1b[{row};1H");
        for column in 0..64 {
            let turns = frames.saturating_add(63 - column) / 64;
            let cell = if row == 1 && turns % 2 == 1 { "▀" } else { " " };
            let _ = text.write_all(cell.as_bytes());
        }
    }
    text
}

/// The row below the picture after this many frames.
fn row_after(alloc: Global, frames: u64) -> Vec<u8> {
    let mut text = Vec::new(alloc);
    let _ = write!(text, "\x1b[17;1H\x1b[K{frames} of 5000 frames  Escape ends");
    text
}

/// The expected text: the bytes that prepare the terminal, the pictures that are due by the clock (every sixtieth one
/// is whole, and the row follows it), and the bytes that restore the terminal.
fn wanted(alloc: Global, row: &Row) -> Pages {
    let mut pages = Pages::new(alloc, row.until_failure);
    if row.screen {
        let _ = pages.write_all(ENTER);
        for number in 0..row.pictures {
            let turn = number.saturating_mul(50).saturating_add(2) / 3;
            let text = picture(alloc, turn.saturating_add(1), number % 60 == 0);
            let _ = pages.write_all(&text);
            if number % 60 == 0 {
                let _ = pages.write_all(&row_after(alloc, turn.saturating_add(1)));
            }
        }
        let _ = pages.write_all(LEAVE);
    }
    pages
}

/// The turns of a watched match, a millisecond each, whether it is drawn, and how many writes come before one that
/// fails. Then the number of drawn pictures, with the one that fails.
struct Row {
    turns: u64,
    screen: bool,
    until_failure: u64,
    pictures: u64,
}

#[rattlefmt::skip]
static ROWS: [Row; 6] = [
    // two seconds; up to the turn before the second picture; and up to that picture
    Row { turns: 2000, screen: true, until_failure: u64::MAX, pictures: 120 },
    Row { turns: 17, screen: true, until_failure: u64::MAX, pictures: 1 },
    Row { turns: 18, screen: true, until_failure: u64::MAX, pictures: 2 },
    Row { turns: 100, screen: false, until_failure: u64::MAX, pictures: 0 },
    // the terminal is restored, even if it took nothing
    Row { turns: 100, screen: true, until_failure: 0, pictures: 0 },
    Row { turns: 100, screen: true, until_failure: 4, pictures: 3 },
];

fn rows() -> &'static [Row] {
    &ROWS
}

/// Whether a match is drawn as a row says, and watched to its last turn.
fn is_drawn<R>(rt: &R, row: &Row) -> bool
where
    R: Clock + Threads + Wait + Sync + AllocGlobal,
{
    let Ok(game) = Game::read(rt.alloc(), GAME.as_bytes()) else {
        return false;
    };
    let asked = asked_for(row.turns, None, row.screen);
    let clock = Counted {
        rt,
        millis: AtomicU64::new(0),
    };
    let mut pages = Pages::new(rt.alloc(), row.until_failure);
    let frames = match watch_on(&clock, &asked, &game, Shows::new(&game), &mut pages) {
        Ok(played) => Some(u64::from(played.frames)),
        Err(_) => None,
    };
    let wanted = wanted(rt.alloc(), row);
    frames == Some(row.turns) && pages.text == wanted.text && pages.ends == wanted.ends
}

#[test]
fn sixty_pictures_a_second_are_drawn(rt: HostRuntime) {
    for (place, row) in rows().iter().enumerate() {
        let is_drawn = is_drawn(&rt, row);
        assert!(rt; is_drawn, "row {place}");
    }
}

const GAME_FILE: &str = "watch_drawing.game";

/// The arguments of a match that nobody plays, watched for one turn.
static WORDS: [&str; 8] = [
    "watch",
    GAME_FILE,
    "5",
    "127.0.0.1:21425",
    "127.0.0.1:21421",
    "--turns",
    "1",
    "--screen",
];

fn words() -> &'static [&'static str] {
    &WORDS
}

const TERMINAL: Terminals = Terminals {
    input: false,
    output: true,
};

/// What these arguments print on a terminal; nothing if they are a mistake.
fn printed<R>(rt: &R) -> Vec<u8>
where
    R: Threaded,
{
    let (mut out, mut refused) = (Vec::new(rt.alloc()), Vec::new(rt.alloc()));
    let Ok(command) = command_of(rt.alloc(), &WATCH) else {
        return out;
    };
    if let Ok(given) = command.try_get_matches_from(words()) {
        let _ = watch_given(rt, &given, TERMINAL, &mut out, &mut refused);
    }
    out
}

/// The report of the machine before the first frame, without its screen.
const REPORT: &[u8] =
    b"frames 0\npc 0200 i 0000\nv 00 00 00 00 00 00 00 00 00 00 00 00 00 00 00 00\ntimer 00 tone 00 draws 0\nstack 0\nstate runs\n";

/// A line of a screen on which no point is lit.
const DARK: &[u8] = b"................................................................\n";

/// The picture, and then this report.
fn drawn(alloc: Global) -> Vec<u8> {
    let mut text = Vec::new(alloc);
    let _ = text.write_all(ENTER);
    let _ = text.write_all(&picture(alloc, 0, true));
    let _ = text.write_all(&row_after(alloc, 0));
    let _ = text.write_all(LEAVE);
    let _ = text.write_all(REPORT);
    for _ in 0..32 {
        let _ = text.write_all(DARK);
    }
    text
}

/// A screen is not refused on a terminal, and the report of the machine follows it.
#[test]
fn the_report_follows_the_screen(rt: HostRuntime) -> Result<(), Fail> {
    fs::write(&rt, GAME_FILE, GAME)?;
    let (printed, drawn) = (printed(&rt), drawn(rt.alloc()));
    assert!(rt; printed.as_slice() == drawn.as_slice());
    assert!(rt; fs::remove_file(&rt, GAME_FILE).is_ok());
    Ok(())
}

/// The milliseconds, how many frames were taken, how many packets did not open, what a relay says, whether the terminal may show
/// something else, and what is then written.
type Told = (u64, u32, u64, Relaying, bool, &'static [u8]);

#[rattlefmt::skip]
static TOLD: [Told; 12] = [
    (0, 0, 0, Relaying::Direct, false, b"\x1b[17;1H\x1b[K0 of 600 frames  Escape ends"),
    (1_999, 0, 0, Relaying::Direct, false, b""),
    (3_000, 0, 0, Relaying::Direct, false, b"\x1b[17;1H\x1b[K0 of 600 frames  nothing new for 3 s  Escape ends"),
    // the second that began at 3,000
    (3_500, 9, 0, Relaying::Direct, false, b""),
    (3_600, 9, 0, Relaying::Direct, true, b"\x1b[17;1H\x1b[K0 of 600 frames  nothing new for 3 s  Escape ends"),
    (4_000, 9, 0, Relaying::Direct, false, b"\x1b[17;1H\x1b[K9 of 600 frames  Escape ends"),
    (8_500, 9, 2, Relaying::Direct, false, b"\x1b[17;1H\x1b[K9 of 600 frames  packets come with another secret, game or room"),
    (9_500, 20, 2, Relaying::Silent(4), false, b"\x1b[17;1H\x1b[K20 of 600 frames  relay: no answer for 4 s  Escape ends"),
    (10_500, 30, 2, Relaying::Taken, false, b"\x1b[17;1H\x1b[K30 of 600 frames  seat 6 is taken  Escape ends"),
    (11_500, 30, 2, Relaying::Joined, false, b"\x1b[17;1H\x1b[K30 of 600 frames  Escape ends"),
    (20_000, 600, 2, Relaying::Joined, false, b"\x1b[17;1H\x1b[K600 of 600 frames  Escape ends"),
    (30_000, 600, 2, Relaying::Joined, false, b""),
];

/// Whether the row below a watched match says so.
fn are_told() -> bool {
    let mut row = WatchRow::new(Duration::from_secs(0), Watcher { number: 6 }, 600);
    for (millis, count, unsealed, relaying, is_whole, wanted) in &TOLD {
        let losses = Losses {
            unsealed: *unsealed,
            ..Losses::default()
        };
        row.hear(losses, *relaying);
        row.note(Duration::from_millis(*millis), *count);
        if row.row(Duration::from_millis(*millis), *is_whole) != *wanted {
            return false;
        }
    }
    true
}

/// Whether a watcher to whom nobody answers reads what may be wrong.
fn is_told_why() -> bool {
    let mut row = WatchRow::new(Duration::from_secs(0), Watcher { number: 5 }, 600);
    let wanted = b"\x1b[17;1H\x1b[K0 of 600 frames  no answer for 7 s: game, room, secret?";
    row.row(Duration::from_secs(7), false) == wanted.as_slice()
}

#[test]
fn the_row_says_how_far_a_watched_match_is(rt: HostRuntime) {
    assert!(rt; are_told() && is_told_why());
}
