//! Facts for callers that belong to no single call: about what a terminal sends, and about how long a key counts as
//! held. Each is the contract of a function that does nothing.
ghost use Rattle.std.specs.Prelude.{◌≡◌, ◌≤◌, ◌<◌, ℕ, Bool, true, false, List, max, nat_lt};
ghost use Rattle.c8_terminal.specs.Sent.{Sent, IsSent, IsRead, AreSent, all_bytes, ready, told_by, told_of_all};
ghost use Rattle.c8_terminal.specs.Strokes.{Press, after_frames, is_held, no_press, pressed, released, struck};

/// The bytes that a terminal sends for one action give its signal at the last byte, and none before.
pub fn what_is_sent_is_told()
    ensures { (sent : Sent) → IsSent sent → IsRead sent }
{}

/// A list of actions gives their signals, in order, and no others.
pub fn nothing_else_is_told()
    ensures { (sent : List Sent) (exact : Bool) → AreSent sent
        → told_by (all_bytes sent) (ready exact) ≡ told_of_all sent exact }
{}

/// A stroke holds its key for exactly `hold` frames. A repeat holds it for 6, or for the frames that were left if they
/// are more. Both if no other signal of the key comes. `frames` counts the frames that began since.
pub fn a_stroke_counts_for_its_frames()
    ensures first { (hold frames : ℕ)
        → is_held (after_frames frames (struck hold no_press)) ≡ nat_lt frames hold }
    ensures repeated { (hold frames : ℕ) (p : Press) → p.down ≡ false → p.since ≤ 45
        → is_held (after_frames frames (struck hold p)) ≡ nat_lt frames (max p.left 6) }
{}

/// A key that is down is held in every frame, and in none after it is released. If no frame has begun in between, it is
/// held in exactly one.
pub fn a_key_is_held_while_it_is_down()
    ensures down { (frames : ℕ) (p : Press) → is_held (after_frames frames (pressed p)) ≡ true }
    ensures up { (frames : ℕ) (p : Press) → p.unseen ≡ false
        → is_held (after_frames frames (released p)) ≡ false }
    ensures tap { (frames : ℕ) (p : Press) → p.down ≡ false
        → is_held (after_frames frames (released (pressed p))) ≡ nat_lt frames 1 }
{}
