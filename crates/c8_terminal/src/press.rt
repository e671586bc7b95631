//! The state of a key between two frames.
ghost use Rattle.std.specs.Prelude.{◌≡◌};
ghost use Rattle.c8_terminal.specs.Held.{press_of};
ghost use Rattle.c8_terminal.specs.Strokes as strokes;

/// How many frames a repeated stroke holds its key.
const REPEAT: u8 = 6;

/// A stroke is a repeat if the last one was at most this many frames ago.
const LATEST_REPEAT: u8 = 45;

/// The count for a stroke too long ago to be repeated.
const LONG_AGO: u8 = 46;

/// The state of a key between two frames.
#[derive(Clone, Copy)]
pub(crate) struct Press {
    /// A signal said that the key is down, and none since that it is up.
    down: bool,
    /// The key went down, or was struck, since the last frame began.
    unseen: bool,
    /// For how many more frames the key counts as held, whether or not it is down.
    left: u8,
    /// How many frames began since its last stroke; [`LONG_AGO`] for more.
    since: u8,
}

impl Press {
    /// A key without any signal.
    pub(crate) const NONE: Press = Press {
        down: false,
        unseen: false,
        left: 0,
        since: LONG_AGO,
    };

    /// Strikes the key: holds it for `hold` frames, or for 6 if this is a repeat; never for fewer than before.
    pub(crate) fn struck(self, hold: u8) -> Self
        ensures { press_of result ≡ strokes.struck hold (press_of self) }
    {
        let frames = if self.since <= LATEST_REPEAT {
            REPEAT
        } else {
            hold
        };
        Press {
            down: self.down,
            unseen: true,
            left: self.left.max(frames),
            since: 0,
        }
    }

    /// Presses the key: holds it until it is released, and for at least one frame. Changes nothing if it is down.
    pub(crate) fn pressed(self) -> Self
        ensures { press_of result ≡ strokes.pressed (press_of self) }
    {
        if self.down {
            self
        } else {
            Press {
                down: true,
                unseen: true,
                left: self.left.max(1),
                since: self.since,
            }
        }
    }

    /// Releases the key: holds it for one more frame if no frame has seen it, else for none.
    pub(crate) fn released(self) -> Self
        ensures { press_of result ≡ strokes.released (press_of self) }
    {
        Press {
            down: false,
            unseen: self.unseen,
            left: u8::from(self.unseen),
            since: self.since,
        }
    }

    /// Returns whether the key counts as held in the next frame.
    pub(crate) fn is_held(self) -> bool
        ensures { result ≡ strokes.is_held (press_of self) }
    {
        self.down || self.left > 0
    }

    /// Returns the key's state after a frame began.
    pub(crate) fn after_frame(self) -> Self
        ensures { press_of result ≡ strokes.after_frame (press_of self) }
    {
        Press {
            down: self.down,
            unseen: false,
            left: self.left.saturating_sub(1),
            since: self.since.saturating_add(1).min(LONG_AGO),
        }
    }
}
