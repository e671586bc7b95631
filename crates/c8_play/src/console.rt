//! The keyboard, the screen and the clock of a person.

ghost use Rattle.std.specs.Prelude.{◌≡◌, ◌≤◌, ◌++◌, ℕ, List, take, IfOk, OnErr};

use c8_terminal::NARROWEST;
use mio::event::Source;
use std::time::Duration;

/// The most bytes of keys that one read takes.
pub const KEY_BYTES: usize = 64;

/// The rows of a terminal that does not say how many it has.
pub const LOWEST: usize = 24;

/// The keyboard or the screen is gone.
#[derive(Clone, Copy, Debug, PartialEq, Eq)]
pub struct Gone;

/// A keyboard, a screen and a clock.
pub trait Console {
    /// The bytes that `keys` returned, oldest first.
    ghost typed: { Self → List ℕ };

    /// The text that it has written since the screen was prepared.
    ghost drawn: { Self → List ℕ };

    /// Prepares the screen for pictures.
    fn enter(&mut self) -> Result<(), Gone>
        ensures { typed self.new ≡ typed self.old };

    /// Restores the screen.
    fn leave(&mut self);

    /// Returns the time since some moment before the first frame.
    fn now(&mut self) -> Duration
        ensures typed { typed self.new ≡ typed self.old }
        ensures drawn { drawn self.new ≡ drawn self.old };

    /// Reads bytes of the keys into the start of a buffer, and returns their number; 0 if nothing has come.
    fn keys(&mut self, bytes: &mut [u8; KEY_BYTES]) -> Result<usize, Gone>
        ensures within { IfOk result (λ size. size ≤ KEY_BYTES) }
        ensures typed { IfOk result (λ size.
            typed self.new ≡ typed self.old ++ take size bytes.new) }
        ensures gone { OnErr result (typed self.new ≡ typed self.old) }
        ensures drawn { drawn self.new ≡ drawn self.old };

    /// Writes all of the text. After an error some of it may have been written.
    fn draw(&mut self, text: &[u8]) -> Result<(), Gone>
        ensures typed { typed self.new ≡ typed self.old }
        ensures drawn { IfOk result (λ _. drawn self.new ≡ drawn self.old ++ text.now) };

    /// Returns how many columns the screen has.
    fn columns(&self) -> usize {
        NARROWEST
    }

    /// Returns how many rows the screen has.
    fn rows(&self) -> usize {
        LOWEST
    }

    /// Registers a source: from now on a packet from it ends a rest.
    fn wake_at<S: Source>(&mut self, source: &mut S)
        ensures typed { typed self.new ≡ typed self.old }
        ensures drawn { drawn self.new ≡ drawn self.old };

    /// Waits for this time, or until a packet has come.
    fn rest(&mut self, time: Duration)
        ensures typed { typed self.new ≡ typed self.old }
        ensures drawn { drawn self.new ≡ drawn self.old };

    /// Waits for this time, whatever comes.
    fn sleep(&mut self, time: Duration)
        ensures typed { typed self.new ≡ typed self.old }
        ensures drawn { drawn self.new ≡ drawn self.old };
}
