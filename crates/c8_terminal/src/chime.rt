//! The bell of the terminal, in place of a tone.

/// The bytes at which a terminal rings its bell.
const BELL: &[u8] = b"\x07";

/// Rings once when a tone begins.
#[derive(Clone, Copy, Debug, PartialEq, Eq)]
pub struct Chime {
    is_muted: bool,
    /// Whether a tone ran in the last frame.
    sounded: bool,
}

impl Chime {
    /// No tone has run yet. A muted chime never rings.
    pub fn new(is_muted: bool) -> Chime {
        Chime {
            is_muted,
            sounded: false,
        }
    }

    /// Takes the tone timer of the next frame, and returns what to write: the bell, or nothing.
    pub fn bell(&mut self, tone: u8) -> &'static [u8] {
        let begins = tone > 0 && !self.sounded;
        self.sounded = tone > 0;
        if begins && !self.is_muted { BELL } else { &[] }
    }
}
