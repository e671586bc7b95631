//! Facts for callers that belong to no single call. Each is the contract of a function that does nothing.
ghost use Rattle.std.specs.Prelude.{◌≡◌, ◌≤◌, true, ℕ, List, [], ◌∷◌, ◌++◌, length, Some, slice_get};
ghost use Rattle.c8_machine.specs.State.{State, IsState};
ghost use Rattle.c8_digest.specs.declared.marks.FrameMark.{FrameMark};
ghost use Rattle.c8_digest.specs.StateBytes.{state_length, state_bytes};
ghost use Rattle.c8_digest.specs.Reading.{state_in};
ghost use Rattle.c8_digest.specs.Marks.{most_marks, kept, mark_at, newest_of, IsLastFor, AreMarksAfter, marks_bytes, marks_in, are_marks};

/// A state that a machine can have has 4419 bytes.
pub fn state_bytes_are_4419()
    ensures { (s : State) → IsState s → length (state_bytes s) ≡ state_length }
{}

/// States with the same bytes are equal, if machines can have them. So a state that a reader makes of bytes, and that
/// has these bytes, is the state that was written.
pub fn state_bytes_tell_the_state()
    ensures { (s t : State) → IsState s → IsState t → state_bytes s ≡ state_bytes t → s ≡ t }
{}

/// The state that is read from the bytes of a machine's state is that state.
pub fn states_are_read_again()
    ensures { (s : State) → IsState s → state_in (state_bytes s) ≡ s }
{}

/// To keep sixteen after each put is to keep the last sixteen of all puts, and the newest is among them.
pub fn marks_are_the_last_sixteen()
    ensures last { (put : List FrameMark) (m : FrameMark)
        → kept (kept put ++ m ∷ []) ≡ kept (put ++ m ∷ []) }
    ensures few { (put : List FrameMark) → length (kept put) ≤ most_marks }
    ensures newest { (put : List FrameMark) (m : FrameMark)
        → newest_of (kept (put ++ m ∷ [])) ≡ Some m }
{}

/// A mark found for a frame is one of those that are kept.
pub fn found_marks_are_kept()
    ensures { (marks : List FrameMark) (frame : ℕ) (mark : List ℕ)
        → mark_at frame marks ≡ Some mark
        → (place : ℕ) × slice_get marks place ≡ Some (record { frame = frame; mark = mark }) }
{}

/// A kept mark is found for its frame, if no later one is of the same frame.
pub fn kept_marks_are_found()
    ensures { (marks : List FrameMark) (place : ℕ) (m : FrameMark)
        → slice_get marks place ≡ Some m → IsLastFor marks place m.frame
        → mark_at m.frame marks ≡ Some m.mark }
{}

/// Marks kept after some number of frames are read back from their bytes; the bytes after them are zeros.
pub fn marks_are_read_again()
    ensures read { (frames : ℕ) (marks : List FrameMark) → AreMarksAfter frames marks
        → marks_in frames (marks_bytes marks) ≡ marks }
    ensures zeros { (frames : ℕ) (marks : List FrameMark) → AreMarksAfter frames marks
        → are_marks frames (marks_bytes marks) ≡ true }
{}
