//! The pairs of inputs to be written.
ghost use Rattle.std.specs.Prelude.{slice_get, [], ◌∷◌, ◌++◌, ◌≡◌, ◌≤◌, ◌<◌, ℕ, true, length, take, drop, replicate, Option, Some, None};
ghost use Rattle.std.specs.Iterator.{YieldsFirst, item_count};
ghost use Rattle.c8_pairs.specs.Pairs.{pairs_of};
ghost use Rattle.c8_pairs.specs.Reading.{well_after, pairs_after};

use crate::pair::Pair;
use crate::run::{LONGEST_RUN, MOST_PAIRS};

/// An iterator over the pairs of inputs.
#[derive(Clone, Copy, Debug)]
pub struct Stretches<'a> {
    rest: &'a [u16],
    ghost few: { length rest.now ≤ 64 },
}

impl<'a> Stretches<'a> {
    ghost use Rattle.c8_pairs.specs.Saying.{pairs_left};

    /// Iterates over the pairs of these inputs, at most 64.
    pub fn new(words: &'a [u16]) -> Stretches<'a>
        requires { length words.now ≤ LONGEST_RUN }
        ensures { pairs_left result ≡ pairs_of words.entry.now }
    {
        Stretches { rest: words }
    }
}

impl<'a> Iterator for Stretches<'a> {
    type Item = Pair;

    ghost use Rattle.c8_pairs.specs.Saying.{pairs_left};

    ghost next_gives = { YieldsFirst pairs_left };

    ghost remaining = { item_count pairs_left };

    #[tactic(auto, using(crate::specs::checked::PairLaws::stretch_from, crate::specs::checked::PairLaws::no_pairs))]
    fn next(&mut self) -> Option<Pair> {
        let keys = *self.rest.first()?;
        let times = same_in_front(self.rest, keys);
        let (_, rest) = self.rest.split_at(times);
        self.rest = rest;
        Some(Pair {
            times: times as u8,
            keys,
        })
    }
}

/// Returns how many inputs at the front are this key set.
fn same_in_front(words: &[u16], keys: u16) -> usize
    ensures within { result ≤ length words.now }
    ensures some { slice_get words.now 0 ≡ Some keys → 0 < result }
    ensures same { words.now ≡ replicate result keys ++ drop result words.now }
    ensures apart { well_after (Some keys) (pairs_of (drop result words.now)) ≡ true }
{
    match words {
        [first, rest @ ..] if *first == keys => 1 + same_in_front(rest, keys),
        _ => 0,
    }
}

/// Returns how many inputs, from the first on, fit into one run: at most 64, in at most 42 pairs.
pub fn fits(words: &[u16]) -> usize
    ensures within { result ≤ length words.now }
    ensures few { result ≤ LONGEST_RUN }
    ensures pairs { length (pairs_of (take result words.now)) ≤ MOST_PAIRS }
    ensures most { (n : ℕ) → n ≤ length words.now → n ≤ LONGEST_RUN
        → length (pairs_of (take n words.now)) ≤ MOST_PAIRS → n ≤ result }
{
    room_for(None, words, LONGEST_RUN, MOST_PAIRS)
}

/// Returns how many inputs fit after an input with key set `last`: at most `inputs`, in at most `pairs`
/// new pairs.
fn room_for(last: Option<u16>, words: &[u16], inputs: usize, pairs: usize) -> usize
    ensures within { result ≤ length words.now }
    ensures few { result ≤ inputs }
    ensures pairs { pairs_after last (take result words.now) ≤ pairs }
    ensures most { (n : ℕ) → n ≤ length words.now → n ≤ inputs
        → pairs_after last (take n words.now) ≤ pairs → n ≤ result }
{
    let [first, rest @ ..] = words else {
        return 0;
    };
    let new = usize::from(last != Some(*first));
    if inputs == 0 || new > pairs {
        return 0;
    }
    1 + room_for(Some(*first), rest, inputs - 1, pairs - new)
}
