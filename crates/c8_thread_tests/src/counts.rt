//! How the log grows, as a person who waits reads it.
use crate::refusals::{ASKED, GAME};
use c8_command::Text;
use c8_script::{Asked, rig};
use std::alloc::Global;
use std::io;
use std::sync::Wait;
use std::sync::atomic::{AtomicU64, Ordering};
use std::thread::Threads;
use std::time::{Clock, Duration};

/// A clock on which this many seconds go by between two looks.
#[derive(Drop)]
struct Hasty<'r, R> {
    rt: &'r R,
    step: u64,
    seconds: AtomicU64,
}

impl<'r, R: Wait> Wait for Hasty<'r, R> {}

impl<'r, R: Threads> Threads for Hasty<'r, R> {}

impl<'r, R: AllocGlobal> Alloc for Hasty<'r, R> {
    type A = Global;

    fn alloc(&self) -> Global {
        self.rt.alloc()
    }
}

impl<'r, R: Clock> Clock for Hasty<'r, R> {
    fn monotonic(&self) -> io::Result<Duration> {
        Ok(Duration::from_secs(self.seconds.fetch_add(self.step, Ordering::SeqCst)))
    }

    fn since_1970(&self) -> io::Result<Duration> {
        self.monotonic()
    }

    fn sleep(&self, duration: Duration) {
        self.rt.sleep(duration);
    }
}

/// Many turns, so that the match is not over before the second look, after 5 milliseconds.
const TURNS: u16 = 10_000;

/// The most notes of a match of two: an opening and a note a turn; and how many are surely reported before it ends.
const MOST: u64 = 20_002;

const SOME: u64 = 100;

/// What is written while a match is played.
fn told<R>(rt: &R, progress: bool, step: u64) -> Vec<u8>
where
    R: Clock + Threads + Wait + Sync + AllocGlobal,
{
    let clock = Hasty {
        rt,
        step,
        seconds: AtomicU64::new(0),
    };
    let (mut out, mut refused) = (Vec::new(rt.alloc()), Vec::new(rt.alloc()));
    let asked = Asked {
        turns: TURNS,
        progress,
        ..ASKED
    };
    let game = Text {
        file: "a.game",
        bytes: GAME.as_bytes(),
    };
    let _ended = rig(
        &clock,
        &asked,
        game,
        None::<&mut Vec<u8>>,
        &mut out,
        &mut refused,
    );
    refused
}

/// The number of a line such as `12345 notes`.
fn count_in(line: &str) -> Option<u64> {
    line.strip_suffix(" notes")?.parse::<u64>().ok()
}

/// The number of the last line, if each line has one, and none is less than the one before.
fn last_count(told: &[u8]) -> Option<u64> {
    let mut last: u64 = 0;
    for line in str::from_utf8(told).ok()?.lines() {
        let count = count_in(line)?;
        if count < last {
            return None;
        }
        last = count;
    }
    Some(last)
}

#[test]
fn the_notes_are_counted_while_the_log_grows(rt: HostRuntime) {
    let last = last_count(&told(&rt, true, 1)).unwrap_or(0);
    assert!(rt; last > SOME && last <= MOST);
}

#[test]
fn nothing_is_counted_unasked_or_within_a_second(rt: HostRuntime) {
    assert!(rt; told(&rt, false, 1).is_empty());
    assert!(rt; told(&rt, true, 0).is_empty());
}
