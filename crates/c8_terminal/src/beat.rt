//! When frames are due, and how late they were.
ghost use Rattle.std.specs.Prelude.{◌≡◌, ◌<◌, ◌≤◌, ◌+◌, ◌*◌, ◌/◌, min, replicate, sum};
ghost use Rattle.std.specs.Duration.{as_nanos, max_nanos};

use std::time::Duration;

/// After a pause of more frames than this, the missed ones are skipped.
const LONGEST_PAUSE: u8 = 5;

/// How many nanoseconds a second has.
const SECOND: u128 = 1_000_000_000;

/// The clock of a game. A frame is due number / rate seconds after the start, so rounding errors do not add up.
#[derive(Clone, Copy)]
pub struct Beat {
    /// The number of frames a second.
    rate: u8,
    start: Duration,
    /// How many frames have begun since the start.
    begun: u64,
    lateness: Lateness,
    ghost some: { 1 ≤ rate },
}

impl Beat {
    ghost use Rattle.c8_terminal.specs.Beats.{IsNoted, clock_of, counts_of, due, late, lateness_of, latest, left, most_of, one_more, started_anew};

    /// Creates a clock whose first frame is due now.
    pub fn new(now: Duration, rate: u8) -> Beat
        requires { 1 ≤ rate }
        ensures clock { clock_of result
            ≡ record { rate = rate; start = as_nanos now; begun = 0 } }
        ensures counts { counts_of (lateness_of result) ≡ replicate 64 0 }
        ensures most { most_of (lateness_of result) ≡ 0 }
    {
        Beat {
            rate,
            start: now,
            begun: 0,
            lateness: Lateness::new(),
        }
    }

    /// Returns how long it is until the next frame is due; 0 if it is due now. A longer time than the longest duration
    /// becomes that.
    pub fn left(&self, now: Duration) -> Duration
        ensures { as_nanos result ≡ min (left (clock_of self.now) (as_nanos now)) max_nanos }
    {
        duration(self.due(0).saturating_sub(now.as_nanos()))
    }

    /// Begins the next frame. If it is late by more than five frames, the clock starts again with it, so that a game
    /// does not run fast to catch up.
    pub fn begin(&mut self, now: Duration)
        ensures anew { latest (clock_of self.old) < as_nanos now
            → clock_of self.new ≡ started_anew (clock_of self.old) (as_nanos now) }
        ensures more { as_nanos now ≤ latest (clock_of self.old)
            → clock_of self.new ≡ one_more (clock_of self.old) }
        ensures lateness { IsNoted (lateness_of self.old) (late (clock_of self.old) (as_nanos now))
            (lateness_of self.new) }
    {
        let late = now.saturating_sub(duration(self.due(0)));
        self.lateness.note(late);
        if now.as_nanos() > self.due(LONGEST_PAUSE) {
            self.start = now;
            self.begun = 0;
        }
        self.begun = self.begun.saturating_add(1);
    }

    /// How late frames have begun.
    pub fn lateness(&self) -> &Lateness
        ensures { result.now ≡ lateness_of self.now }
    {
        &self.lateness
    }

    /// Returns the time at which the frame `after` frames after the next one is due, in nanoseconds.
    fn due(&self, after: u8) -> u128
        ensures { result ≡ due (clock_of self.now) ((clock_of self.now).begun + after) }
    {
        let frame = u128::from(self.begun) + u128::from(after);
        self.start.as_nanos() + frame * SECOND / u128::from(self.rate)
    }
}

/// A time in nanoseconds as a duration, or the longest duration if it is longer.
fn duration(nanos: u128) -> Duration
    ensures { as_nanos result ≡ min nanos max_nanos }
{
    if nanos < Duration::MAX.as_nanos() {
        Duration::from_nanos_u128(nanos)
    } else {
        Duration::MAX
    }
}

/// Lateness above this many milliseconds counts as this many.
const MOST_LATE: usize = 63;

/// Counts of frames by their lateness in whole milliseconds, and the greatest lateness.
#[derive(Clone, Copy, Debug, PartialEq, Eq)]
pub struct Lateness {
    frames: [u32; MOST_LATE + 1],
    most: Duration,
}

impl Lateness {
    ghost use Rattle.c8_terminal.specs.Beats.{IsMedian, IsNoted, counts_of, most_of};

    /// No frames yet.
    pub fn new() -> Lateness
        ensures counts { counts_of result ≡ replicate 64 0 }
        ensures most { most_of result ≡ 0 }
    {
        Lateness {
            frames: [0; MOST_LATE + 1],
            most: Duration::from_secs(0),
        }
    }

    /// Notes how late a frame was.
    pub fn note(&mut self, late: Duration)
        ensures { IsNoted self.old (as_nanos late) self.new }
    {
        let millis = usize::try_from(late.as_millis()).unwrap_or(MOST_LATE);
        let place = millis.min(MOST_LATE);
        self.frames[place] = self.frames[place].saturating_add(1);
        if late > self.most {
            self.most = late;
        }
    }

    /// Returns the median lateness in whole milliseconds: at least half of the frames were late by at most that. It is
    /// 0 without frames, and at most 63.
    #[tactic(auto, using(crate::proofs::BeatLemmas::sum_more))]
    pub fn median(&self) -> usize
        ensures { IsMedian (counts_of self.now) result }
    {
        let all = self.all();
        let mut some: u64 = 0;
        for place in 0..MOST_LATE {
            some += u64::from(self.frames[place]);
            if some * 2 >= all {
                return place;
            }
        }
        MOST_LATE
    }

    /// Returns how many frames were noted.
    #[tactic(auto, using(crate::proofs::BeatLemmas::sum_more))]
    fn all(&self) -> u64
        ensures { result ≡ sum (counts_of self.now) }
    {
        let mut all: u64 = 0;
        for frames in &self.frames {
            all += u64::from(*frames);
        }
        all
    }

    /// Returns the greatest lateness, in whole milliseconds; 0 without frames.
    pub fn most(&self) -> u128
        ensures { result ≡ most_of self.now / 1_000_000 }
    {
        self.most.as_millis()
    }
}

impl Default for Lateness {
    ghost use Rattle.c8_terminal.specs.Beats.{counts_of, most_of};

    ghost is_default = { λ lateness. (counts_of lateness ≡ replicate 64 0)
        × (most_of lateness ≡ 0) };

    fn default() -> Lateness {
        Lateness::new()
    }
}
