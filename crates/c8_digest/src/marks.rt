//! The last sixteen marks.
ghost use Rattle.std.specs.Prelude.{◌≡◌, ◌≤◌, ◌<◌, ◌*◌, ◌==◌, ◌++◌, [], ◌∷◌, take, drop, if◌then◌else◌, Some, IfOk};
ghost use Rattle.std.specs.List.{list_all};
ghost use Rattle.arrayvec.specs.ArrayVec.{array_vec_len};
ghost use Rattle.c8_machine.specs.State.{state};
ghost use Rattle.c8_digest.specs.StateBytes.{mark_of};
ghost use Rattle.c8_digest.specs.Marks.{kept, mark_at, newest_of, marks_after, marks_bytes, marks_in, are_marks};

use crate::digest::{MARK_LENGTH, put};
use crate::marker::Marker;
use arrayvec::ArrayVec;
use c8_machine::Machine;
use circular_buffer::HeapCircularBuffer;
use std::alloc::{AllocError, Global};
use std::fmt;
use std::marker::Model;

/// The number of frames from one mark to the next. The first mark is before the first frame.
pub const MARK_STEP: u32 = 32;

/// The most marks that are kept.
const MOST_MARKS: usize = 16;

/// The size of sixteen marks in bytes.
pub const MARKS_LENGTH: usize = 128;

/// A mark, and the number of frames after which the machine had it.
#[derive(Clone, Copy, Debug, PartialEq, Eq, Hash)]
pub struct FrameMark {
    pub frame: u32,
    pub mark: [u8; MARK_LENGTH],
}

/// The last sixteen marks that were put. Contracts see them as a list, oldest first.
#[derive(Drop)]
pub struct Marks {
    ring: HeapCircularBuffer<FrameMark>,
    marker: Marker,
}

impl Model for Marks {
    ghost use Rattle.std.specs.Prelude.{◌≡◌, ◌≤◌, List, length};
    ghost use Rattle.c8_digest.specs.declared.marks.FrameMark.{FrameMark};
    ghost use Rattle.c8_digest.specs.Marks.{most_marks};

    ghost Value = { List FrameMark };

    ghost view = { λ marks. marks.ring.items };

    ghost invariant = { λ marks. marks.ring.capacity ≡ most_marks };
}

/// Prints how many marks there are, not the marks.
impl fmt::Debug for Marks {
    fn fmt<W: fmt::Write>(&self, f: &mut fmt::Formatter<W>) -> fmt::Result {
        let count = self.ring.len();
        write!(f, "Marks {{ count: {count} }}")
    }
}

impl Marks {
    /// Makes an empty list of marks. It reserves the memory for all sixteen; no other call takes memory.
    pub fn new(alloc: Global) -> Result<Marks, AllocError>
        ensures { IfOk result (λ marks. marks ≡ []) }
    {
        Ok(Marks {
            ring: HeapCircularBuffer::with_capacity(alloc, MOST_MARKS)?,
            marker: Marker::new(),
        })
    }

    /// Adds the mark of the machine after `frame` frames. If sixteen are kept, it drops the oldest.
    pub fn put_of(&mut self, frame: u32, machine: &Machine)
        ensures { self.new ≡ kept (self.old
            ++ (record { frame = frame; mark = mark_of (state machine.now) }) ∷ []) }
    {
        let mark = self.marker.mark(machine);
        self.put(frame, mark);
    }

    /// Adds a mark. If sixteen are kept, it drops the oldest.
    pub fn put(&mut self, frame: u32, mark: [u8; MARK_LENGTH])
        ensures { self.new
            ≡ kept (self.old ++ (record { frame = frame; mark = mark }) ∷ []) }
    {
        let _forgotten = self.ring.push_back(FrameMark { frame, mark });
    }

    /// Returns the newest mark for a frame, if one is kept.
    pub fn get(&self, frame: u32) -> Option<[u8; MARK_LENGTH]>
        ensures { result ≡ mark_at frame self.now }
    {
        let mut found = None;
        for n in 0..self.ring.len() {
            let Some(kept) = self.ring.get(n) else {
                unreachable!();
            };
            found = later(found, *kept, frame);
        }
        found
    }

    /// Writes the marks one after the other, 8 bytes each, oldest first, and zeros after them.
    pub fn bytes(&self, out: &mut [u8; MARKS_LENGTH])
        ensures { out.new ≡ marks_bytes self.now }
    {
        out.copy_from_slice(self.spelled().as_slice());
    }

    fn spelled(&self) -> ArrayVec<u8, MARKS_LENGTH>
        ensures bytes { result.items ≡ marks_bytes self.now }
        ensures length { array_vec_len result ≡ MARKS_LENGTH }
    {
        let mut bytes = ArrayVec::new();
        for n in 0..self.ring.len() {
            let Some(kept) = self.ring.get(n) else {
                unreachable!();
            };
            put(&kept.mark, &mut bytes);
        }
        let room = MARKS_LENGTH - bytes.len();
        put(&[0; MARKS_LENGTH][..room], &mut bytes);
        bytes
    }

    /// Adds the marks with these bytes, as they are kept after `frames` frames: those of the last multiples of 32 up to
    /// `frames`, at most sixteen.
    pub fn read(&mut self, frames: u32, bytes: &[u8; MARKS_LENGTH])
        ensures { self.new ≡ kept (self.old ++ marks_in frames bytes.now) }
    {
        let count = marks_after(frames);
        let forgotten = frames / MARK_STEP + 1 - count;
        for k in 0..count {
            self.put(MARK_STEP * (forgotten + k), mark_in(bytes, k as usize));
        }
    }

    /// Returns the newest mark with its frame; `None` if there is none. If frames are put in rising order, it is the
    /// mark of the greatest frame.
    pub fn newest(&self) -> Option<FrameMark>
        ensures { result ≡ newest_of self.now }
    {
        self.ring.back().copied()
    }
}

/// Returns whether these can be the bytes of the marks kept after `frames` frames: whether all bytes after the marks
/// are 0.
pub fn are_marks(frames: u32, bytes: &[u8; MARKS_LENGTH]) -> bool
    ensures { result ≡ are_marks frames bytes.now }
{
    let count = marks_after(frames) as usize;
    are_zeros(&bytes[MARK_LENGTH * count..])
}

fn are_zeros(bytes: &[u8]) -> bool
    ensures { result ≡ list_all (λ byte. byte == 0) bytes.now }
{
    bytes.iter().all(|byte| *byte == 0)
}

/// Returns how many marks are kept after this many frames.
fn marks_after(frames: u32) -> u32
    ensures value { result ≡ marks_after frames }
    ensures few { result ≤ 16 }
{
    (frames / MARK_STEP + 1).min(MOST_MARKS as u32)
}

fn mark_in(bytes: &[u8; MARKS_LENGTH], place: usize) -> [u8; MARK_LENGTH]
    requires { place < 16 }
    ensures { result ≡ take 8 (drop (8 * place) bytes.now) }
{
    match bytes[MARK_LENGTH * place..].first_chunk() {
        Some(mark) => *mark,
        None => unreachable!(),
    }
}

/// Returns the mark found for a frame after one more kept mark.
fn later(found: Option<[u8; MARK_LENGTH]>, kept: FrameMark, frame: u32) -> Option<[u8; MARK_LENGTH]>
    ensures { result ≡ (if kept.frame == frame then Some kept.mark else found) }
{
    if kept.frame == frame {
        Some(kept.mark)
    } else {
        found
    }
}
