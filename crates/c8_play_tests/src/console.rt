//! Consoles with scripted keys, and a clock that only sleeps move.

use c8_play::{Console, Exchange, Gone, KEY_BYTES};
use mio::event::Source;
use std::alloc::Global;
use std::sync::atomic::{AtomicU64, Ordering};
use std::time::{Clock, Duration};
use std::{io, thread};

/// A clock that only sleeps move.
#[derive(Drop)]
pub struct Still {
    nanos: AtomicU64,
}

impl Still {
    pub fn new() -> Still {
        Still {
            nanos: AtomicU64::new(0),
        }
    }
}

impl Clock for Still {
    fn monotonic(&self) -> io::Result<Duration> {
        Ok(Duration::from_nanos(self.nanos.load(Ordering::SeqCst)))
    }

    fn since_1970(&self) -> io::Result<Duration> {
        self.monotonic()
    }

    fn sleep(&self, duration: Duration) {
        let nanos = u64::try_from(duration.as_nanos()).unwrap_or(u64::MAX);
        self.nanos.fetch_add(nanos, Ordering::SeqCst);
    }
}

/// The bytes that a terminal sends in a frame, counted from 0. Without bytes it hangs up.
pub type Sent = (u32, &'static [u8]);

/// How often a console was prepared, written on, restored, and given a wire to wake it.
pub type Marks = (u32, u32, u32, u32);

/// What was seen at a console.
#[derive(Drop)]
pub struct Log {
    /// At which microseconds frames began.
    pub begun: Vec<u64>,
    /// All that was written.
    pub drawn: Vec<u8>,
    pub marks: Marks,
}

impl Log {
    pub fn new(alloc: Global) -> Log {
        Log {
            begun: Vec::new(alloc),
            drawn: Vec::new(alloc),
            marks: (0, 0, 0, 0),
        }
    }
}

/// A console that sends these keys.
#[derive(Drop)]
pub struct Written<'r, R> {
    rt: &'r R,
    sent: &'static [Sent],
    /// How many of these the desk has read, and in which frame it is.
    told: usize,
    frame: u32,
    /// After how long a packet ends a rest.
    pub longest_rest: Duration,
    log: &'r mut Log,
    exchange: Exchange,
}

impl<'r, R: Clock> Written<'r, R> {
    pub fn new(rt: &'r R, sent: &'static [Sent], log: &'r mut Log) -> Written<'r, R> {
        Written {
            rt,
            sent,
            told: 0,
            frame: 0,
            longest_rest: Duration::MAX,
            log,
            exchange: Exchange::new(),
        }
    }
}

impl<'r, R: Clock> Console for Written<'r, R> {
    ghost typed = { λ console. console.exchange.typed.items };

    ghost drawn = { λ console. console.exchange.drawn.items };

    fn enter(&mut self) -> Result<(), Gone> {
        self.log.marks.0 = self.log.marks.0.saturating_add(1);
        Ok(())
    }

    fn leave(&mut self) {
        self.log.marks.2 = self.log.marks.2.saturating_add(1);
    }

    fn now(&mut self) -> Duration {
        self.rt.monotonic().unwrap_or(Duration::from_secs(0))
    }

    /// A frame is over when all that is sent in it was read.
    fn keys(&mut self, bytes: &mut [u8; KEY_BYTES]) -> Result<usize, Gone> {
        if let Some((frame, sent)) = self.sent.get(self.told)
            && *frame == self.frame
        {
            self.told = self.told.saturating_add(1);
            if sent.is_empty() {
                return Err(Gone);
            }
            let size = sent.len().min(KEY_BYTES);
            bytes[..size].copy_from_slice(&sent[..size]);
            self.exchange.sent(&bytes[..size]);
            return Ok(size);
        }
        self.frame = self.frame.saturating_add(1);
        let now = self.rt.monotonic().unwrap_or(Duration::from_secs(0));
        let micros = u64::try_from(now.as_micros()).unwrap_or(u64::MAX);
        let _ = self.log.begun.push(micros);
        Ok(0)
    }

    fn draw(&mut self, text: &[u8]) -> Result<(), Gone> {
        self.log.marks.1 = self.log.marks.1.saturating_add(1);
        let _ = self.log.drawn.extend_from_slice(text);
        self.exchange.wrote(text);
        Ok(())
    }

    fn wake_at<S: Source>(&mut self, _source: &mut S) {
        self.log.marks.3 = self.log.marks.3.saturating_add(1);
    }

    fn rest(&mut self, time: Duration) {
        thread::sleep(self.rt, time.min(self.longest_rest));
    }

    fn sleep(&mut self, time: Duration) {
        thread::sleep(self.rt, time);
    }
}
