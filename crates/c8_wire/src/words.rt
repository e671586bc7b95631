//! A run in version 1, borrowed from its bytes.
ghost use Rattle.std.specs.Prelude.{◌≡◌, ◌+◌, ◌*◌, ◌%◌, ◌^◌, ◌<◌, ◌≤◌, ℕ, length, drop, Some, slice_get, slice_index};
ghost use Rattle.std.specs.Iterator.{YieldsFirst, item_count};
ghost use Rattle.c8_wire.specs.Spelling.{SpellsWords};
ghost use Rattle.c8_wire.specs.Reading.{words_of};

use crate::numbers::u16_at;
use crate::sizes::LONGEST_RUN;

/// Consecutive inputs of one player, at most 64, two bytes each.
#[derive(Clone, Copy, Debug)]
pub struct Words<'a> {
    pub(crate) bytes: &'a [u8],
    pub(crate) ghost even: { length bytes.now % 2 ≡ 0 },
    pub(crate) ghost short: { length bytes.now ≤ 128 },
    pub(crate) ghost spells: { SpellsWords bytes.now (words_of bytes.now) },
    pub(crate) ghost sets: { (i : ℕ) → slice_index (words_of bytes.now) i < 2 ^ 16 },
}

impl<'a> Words<'a> {
    ghost use Rattle.c8_wire.specs.Lent.{key_sets, key_sets_left};

    /// Wraps bytes as a run, two bytes for each input.
    pub(crate) fn new(bytes: &'a [u8]) -> Words<'a>
        requires even { length bytes.now % 2 ≡ 0 }
        requires short { length bytes.now ≤ 2 * LONGEST_RUN }
        ensures slice { result.bytes.now ≡ bytes.entry.now }
        ensures spells { SpellsWords bytes.entry.now (key_sets result) }
    {
        Words { bytes }
    }

    /// Returns how many inputs there are.
    #[tactic(auto, using(crate::specs::checked::WordLaws::length_words_of))]
    pub(crate) fn len(&self) -> usize
        ensures count { result ≡ length (key_sets self.now) }
        ensures short { result ≤ LONGEST_RUN }
        ensures sets { (i : ℕ) → slice_index (key_sets self.now) i < 2 ^ 16 }
    {
        self.bytes.len() / 2
    }

    /// Returns the input at a place, from 0.
    #[tactic(auto, using(crate::specs::checked::WordLaws::length_words_of, crate::specs::checked::WordLaws::slice_get_words_of))]
    pub(crate) fn get(&self, place: usize) -> u16
        requires { place < length (key_sets self.now) }
        ensures { slice_get (key_sets self.now) place ≡ Some result }
    {
        u16_at(self.bytes, 2 * place)
    }

    /// Returns the inputs from a place on, borrowed from the same bytes.
    #[tactic(auto, using(crate::specs::checked::WordLaws::length_words_of, crate::specs::checked::WordLaws::drop_words_of))]
    pub(crate) fn from_place(&self, place: usize) -> Words<'a>
        requires { place ≤ length (key_sets self.now) }
        ensures words { key_sets result ≡ drop place (key_sets self.now) }
        ensures slice { result.bytes.now ≡ drop (2 * place) self.now.bytes.now }
    {
        let (_, bytes) = self.bytes.split_at(2 * place);
        Words::new(bytes)
    }

    /// Iterates over the inputs in order.
    pub(crate) fn iter(&self) -> WordsIter<'a>
        ensures { key_sets_left result ≡ key_sets self.now }
    {
        WordsIter { rest: self.bytes }
    }

    /// Returns the bytes of the run as they were received.
    #[tactic(auto, using(crate::specs::checked::WordLaws::length_of_words))]
    pub(crate) fn bytes(&self) -> &'a [u8]
        ensures slice { result.now ≡ self.now.bytes.now }
        ensures spells { SpellsWords result.now (key_sets self.now) }
        ensures size { length result.now ≡ 2 * length (key_sets self.now) }
    {
        let Words { bytes } = *self;
        bytes
    }
}

/// An iterator over the inputs of a run.
#[derive(Clone, Copy, Debug)]
pub struct WordsIter<'a> {
    pub(crate) rest: &'a [u8],
}

impl<'a> Iterator for WordsIter<'a> {
    type Item = u16;

    ghost use Rattle.c8_wire.specs.Lent.{key_sets_left};

    ghost next_gives = { YieldsFirst key_sets_left };

    ghost remaining = { item_count key_sets_left };

    #[tactic(auto, unfolding(crate::specs::Reading::words_of))]
    fn next(&mut self) -> Option<u16> {
        let [high, low, rest @ ..] = self.rest else {
            return None;
        };
        self.rest = rest;
        Some(u16::from(*high) * 256 + u16::from(*low))
    }
}
