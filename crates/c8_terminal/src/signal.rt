//! What a person does at a keyboard.

/// What a person does at a keyboard, as the terminal reports it. A key is one of the keypad, 0 to 15.
#[derive(Clone, Copy, Debug, PartialEq, Eq)]
pub enum Signal {
    /// A key was struck. The terminal does not report its release.
    Struck(u8),
    /// A key is down, newly or still.
    Down(u8),
    /// A key was released.
    Up(u8),
    /// All keys count as released: the window lost the focus.
    LetGo,
    /// Escape or control-C: the person wants to end.
    Quit,
    /// Control-L: the person wants everything repainted.
    Repaint,
    /// Control-D: the person wants to give up the player for whom the match waits.
    GiveUp,
    /// F1: the person wants to know the own keys.
    Help,
}
