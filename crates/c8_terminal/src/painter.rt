//! Paints screens: writes what changed.
ghost use Rattle.std.specs.Prelude.{◌≡◌, ◌<◌, ◌≤◌, [], length, Some, None};
ghost use Rattle.arrayvec.specs.ArrayVec.{array_vec_len};
ghost use Rattle.c8_screen.specs.Points.{points_of};
ghost use Rattle.c8_terminal.specs.Painter.{known_to, painted_by, seen};
ghost use Rattle.c8_terminal.specs.Painting.{painting, is_due, same_row};
ghost use Rattle.c8_terminal.specs.Picture.{Repaints};

use crate::line::{LONGEST_PAINTING, TEXT_ROWS, put_line};
use arrayvec::ArrayVec;
use c8_screen::{HEIGHT, Screen};

/// Makes the bytes that turn what a terminal shows into a screen. It keeps the screen that it painted last. It has room
/// for the bytes of a whole screen: no call takes memory.
#[derive(Drop)]
pub struct Painter {
    shown: Option<Screen>,
    bytes: ArrayVec<u8, LONGEST_PAINTING>,
}

impl Painter {
    /// Makes a painter that does not know what its terminal shows. Its first painting is of all 16 rows of text.
    pub fn new() -> Self
        ensures known { known_to result ≡ None }
        ensures bytes { painted_by result ≡ [] }
    {
        Painter {
            shown: None,
            bytes: ArrayVec::new(),
        }
    }

    /// Forgets what the terminal shows. Call it if something else may have been written there: the next painting is of
    /// all 16 rows of text. [`Painter::bytes`] does not change.
    pub fn forget(&mut self)
        ensures known { known_to self.new ≡ None }
        ensures bytes { painted_by self.new ≡ painted_by self.old }
    {
        self.shown = None;
    }

    /// Paints a screen. A terminal that shows the last painting shows this screen after it has read all of
    /// [`Painter::bytes`].
    ///
    /// The bytes are the text rows that differ, each `ESC [ row ; 1 H` and 64 cells in UTF-8: a space, `▀`, `▄` or `█`.
    /// The terminal needs at least 64 columns and 16 rows, and nothing else may be written there. If the write fails,
    /// call [`Painter::forget`].
    pub fn paint(&mut self, screen: &Screen)
        ensures shows { Repaints (known_to self.old) (painted_by self.new) (points_of screen.now) }
        ensures known { known_to self.new ≡ Some (points_of screen.now) }
        ensures exact { painted_by self.new ≡ painting (known_to self.old) (points_of screen.now) }
        ensures same { known_to self.old ≡ Some (points_of screen.now) → painted_by self.new ≡ [] }
    {
        self.bytes.clear();
        for y in 0..TEXT_ROWS {
            if is_due(&self.shown, screen, y) {
                put_line(screen, y, &mut self.bytes);
            }
        }
        self.shown = Some(*screen);
    }

    /// Returns the bytes of the last painting, at most 3,184. Write them in one call, so that no half picture is seen.
    /// They are empty before the first painting, and after one that changes nothing.
    pub fn bytes(&self) -> &[u8]
        ensures bytes { result.now ≡ painted_by self.now }
        ensures fits { length result.now ≤ LONGEST_PAINTING }
    {
        self.bytes.as_slice()
    }
}

impl Default for Painter {
    ghost is_default = { λ p. (known_to p ≡ None) × (painted_by p ≡ []) };

    fn default() -> Self {
        Painter::new()
    }
}

/// Returns whether text row `y` of a screen differs from what is shown; true if that is not known.
fn is_due(shown: &Option<Screen>, screen: &Screen, y: u8) -> bool
    requires { y < TEXT_ROWS }
    ensures { result ≡ is_due (seen shown.now) (points_of screen.now) y }
{
    match shown {
        None => true,
        Some(shown) => !(same_row(shown, screen, 2 * y) && same_row(shown, screen, 2 * y + 1)),
    }
}

/// Returns whether two screens have the same points in row `y`.
fn same_row(a: &Screen, b: &Screen, y: u8) -> bool
    requires { y < HEIGHT }
    ensures { result ≡ same_row (points_of a.now) (points_of b.now) y }
{
    let a = *a.row(y);
    let b = *b.row(y);
    a == b
}
