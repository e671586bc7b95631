//! A run of inputs, borrowed from its bytes in either version.
ghost use Rattle.std.specs.Prelude.{◌≡◌, ◌+◌, ◌*◌, ◌%◌, ◌^◌, ◌==◌, ◌<◌, ◌≤◌, ℕ, true, false, length, drop, Some, slice_get, slice_index, MatchOption};
ghost use Rattle.std.specs.Iterator.{YieldsFirst, item_count};
ghost use Rattle.c8_game.specs.declared.wire.WireVersion.TheVariants as versions;
ghost use Rattle.c8_wire.specs.Spelling.{SpellsWords, inputs_bytes};
ghost use Rattle.c8_wire.specs.Reading.{words_of, inputs_of};
ghost use Rattle.c8_wire.specs.Refusal.{has_wrong_size, are_no_run};
ghost use Rattle.c8_wire.specs.Lent.{version_of, words, spelled, touched, is_begun_at, IsSliceFrom, words_left};

use crate::sizes::LONGEST_RUN;
use crate::words::{Words, WordsIter};
use c8_game::WireVersion;
use c8_pairs::{Pairs, PairsIter};

/// Consecutive inputs of one player, at most 64. `==` compares the bytes, the version and the start, not
/// the inputs: two runs of the same inputs can differ.
#[derive(Clone, Copy, Debug)]
pub enum Run<'a> {
    /// Version 1: two bytes for each input.
    Words(Words<'a>),
    /// Version 2: a pair of three bytes for each stretch of equal key sets.
    Pairs(Pairs<'a>),
}

impl<'a> Run<'a> {
    /// Wraps bytes as a run in version 1: two bytes for each input, at most 64 inputs.
    pub fn new(bytes: &'a [u8]) -> Run<'a>
        requires even { length bytes.now % 2 ≡ 0 }
        requires short { length bytes.now ≤ 2 * LONGEST_RUN }
        ensures version { version_of result ≡ versions.One }
        ensures slice { spelled result ≡ bytes.entry.now }
        ensures spells { SpellsWords bytes.entry.now (words result) }
    {
        Run::Words(Words::new(bytes))
    }

    /// Wraps bytes that are known to be a run of `count` inputs in this version.
    pub(crate) fn of(version: WireVersion, count: usize, bytes: &'a [u8]) -> Run<'a>
        requires few { count ≤ LONGEST_RUN }
        requires sized { has_wrong_size version count (length bytes.now) ≡ false }
        requires paired { are_no_run version count bytes.now ≡ false }
        ensures version { version_of result ≡ version }
        ensures words { words result ≡ inputs_of version bytes.entry.now }
        ensures whole { touched result ≡ words result }
        ensures slice { spelled result ≡ bytes.entry.now }
    {
        match version {
            WireVersion::One => Run::Words(Words::new(bytes)),
            WireVersion::Two => Run::Pairs(Pairs::new(bytes, count)),
        }
    }

    /// Returns the version in which the run is encoded.
    pub fn version(&self) -> WireVersion
        ensures { result ≡ version_of self.now }
    {
        match self {
            Run::Words(_) => WireVersion::One,
            Run::Pairs(_) => WireVersion::Two,
        }
    }

    /// Returns how many inputs there are, 0 to 64. Each is a set of 16 keys.
    pub fn len(&self) -> usize
        ensures count { result ≡ length (words self.now) }
        ensures short { result ≤ LONGEST_RUN }
        ensures sets { (i : ℕ) → slice_index (words self.now) i < 2 ^ 16 }
    {
        match self {
            Run::Words(run) => run.len(),
            Run::Pairs(run) => run.len(),
        }
    }

    pub fn is_empty(&self) -> bool
        ensures { result ≡ (length (words self.now) == 0) }
    {
        self.len() == 0
    }

    /// Returns the input at a place, from 0. In version 2 this walks over the pairs.
    pub fn get(&self, place: usize) -> u16
        requires { place < length (words self.now) }
        ensures { slice_get (words self.now) place ≡ Some result }
    {
        match self {
            Run::Words(run) => run.get(place),
            Run::Pairs(run) => run.get(place),
        }
    }

    /// Returns the inputs from a place on, borrowed from the same bytes. `place` may be the length.
    pub fn from_place(&self, place: usize) -> Run<'a>
        requires { place ≤ length (words self.now) }
        ensures version { version_of result ≡ version_of self.now }
        ensures words { words result ≡ drop place (words self.now) }
        ensures slice { IsSliceFrom self.now place result }
    {
        match self {
            Run::Words(run) => Run::Words(run.from_place(place)),
            Run::Pairs(run) => Run::Pairs(run.from_place(place)),
        }
    }

    /// Iterates over the inputs in order. The whole iteration is one walk over the bytes.
    pub fn iter(&self) -> Inputs<'a>
        ensures { words_left result ≡ words self.now }
    {
        match self {
            Run::Words(run) => Inputs::Words(run.iter()),
            Run::Pairs(run) => Inputs::Pairs(run.iter()),
        }
    }

    /// Returns the bytes of the run as they were received, at most 128. In version 2 they are whole
    /// pairs, and the run can begin inside the first: see [`Run::skip`].
    pub fn bytes(&self) -> &'a [u8]
        ensures slice { result.now ≡ spelled self.now }
        ensures spells { inputs_bytes (version_of self.now) (touched self.now) ≡ result.now }
        ensures short { length result.now ≤ 2 * LONGEST_RUN }
    {
        match self {
            Run::Words(run) => run.bytes(),
            Run::Pairs(run) => run.bytes(),
        }
    }

    /// Returns how many inputs of the first pair come before the run; 0 in version 1 and for an empty
    /// run.
    pub fn skip(&self) -> usize
        ensures words { words self.now ≡ drop result (touched self.now) }
        ensures begun { is_begun_at result self.now ≡ true }
    {
        match self {
            Run::Words(_) => 0,
            Run::Pairs(run) => run.skip(),
        }
    }
}

/// An iterator over the inputs of a run.
#[derive(Clone, Copy, Debug)]
pub enum Inputs<'a> {
    Words(WordsIter<'a>),
    Pairs(PairsIter<'a>),
}

impl<'a> Iterator for Inputs<'a> {
    type Item = u16;

    ghost next_gives = { YieldsFirst words_left };

    ghost remaining = { item_count words_left };

    fn next(&mut self) -> Option<u16> {
        match self {
            Inputs::Words(words) => words.next(),
            Inputs::Pairs(pairs) => pairs.next(),
        }
    }
}

impl<'a> IntoIterator for &Run<'a> {
    type Item = u16;

    type IntoIter = Inputs<'a>;

    ghost into_iter_gives = { λ run iterator. words_left iterator ≡ words run.now };

    fn into_iter(self) -> Inputs<'a> {
        self.iter()
    }
}
