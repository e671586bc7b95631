//! The keys of a person who watches a match, and what they ask for.

ghost use Rattle.std.specs.Prelude.{◌≤◌};

/// What a person asks for.
#[derive(Clone, Copy, Debug, PartialEq, Eq)]
pub(crate) enum Ask {
    /// To pause, or to go on.
    Pause,
    /// To show the next frame, and pause.
    Step,
    /// To go back one second.
    Back,
    /// To go forward one second.
    Forth,
    /// To go to this tenth of the match, 0 to 9.
    Tenth(u8),
    /// To quit.
    Quit,
}

impl Ask {
    /// Returns the frame to which this leads from the frame `at` of `frames`, at `rate` frames a second.
    pub(crate) fn goal(self, at: u32, frames: u32, rate: u8) -> u32
        ensures { result ≤ frames }
    {
        let goal = match self {
            Ask::Pause | Ask::Quit => at,
            Ask::Step => at.saturating_add(1),
            Ask::Back => at.saturating_sub(u32::from(rate)),
            Ask::Forth => at.saturating_add(u32::from(rate)),
            Ask::Tenth(tenths) => (frames / 10).saturating_mul(u32::from(tenths)),
        };
        goal.min(frames)
    }
}

const ESCAPE: u8 = 0x1b;

const CONTROL_C: u8 = 0x03;

/// The incomplete key sequence that was read so far.
#[derive(Clone, Copy, Debug, PartialEq, Eq)]
pub(crate) enum Strokes {
    /// None.
    Ready,
    /// An escape: the key itself, or the start of a sequence.
    Escape,
    /// The start of a sequence, whose last byte names the key.
    Sequence,
}

impl Strokes {
    /// Reads a byte, and returns what it asks for. An arrow is `ESC [ C` or `ESC O C`.
    pub(crate) fn take(&mut self, byte: u8) -> Option<Ask> {
        let before = *self;
        *self = match (before, byte) {
            (Strokes::Escape, b'[' | b'O') => Strokes::Sequence,
            (Strokes::Sequence, b'0'..=b'?') => Strokes::Sequence,
            (_, ESCAPE) => Strokes::Escape,
            _ => Strokes::Ready,
        };
        match (before, byte) {
            (Strokes::Sequence, b'C') => Some(Ask::Forth),
            (Strokes::Sequence, b'D') => Some(Ask::Back),
            (Strokes::Sequence, _) => None,
            (Strokes::Escape, b'[' | b'O') => None,
            (Strokes::Escape, ESCAPE) => Some(Ask::Quit),
            (_, byte) => asked_by(byte),
        }
    }

    /// Notes that no byte follows: a lone escape was the key itself.
    pub(crate) fn pause(&mut self) -> Option<Ask> {
        match *self {
            Strokes::Escape => {
                *self = Strokes::Ready;
                Some(Ask::Quit)
            }
            Strokes::Ready | Strokes::Sequence => None,
        }
    }
}

/// Returns what a one-byte key asks for.
fn asked_by(byte: u8) -> Option<Ask> {
    match byte {
        b' ' => Some(Ask::Pause),
        b'.' => Some(Ask::Step),
        b'0'..=b'9' => Some(Ask::Tenth(byte - b'0')),
        CONTROL_C => Some(Ask::Quit),
        _ => None,
    }
}
