//! A run of inputs, borrowed from the bytes of its pairs.
ghost use Rattle.std.specs.Prelude.{[], ◌∷◌, ◌≡◌, ◌≤◌, ◌<◌, ◌+◌, ◌*◌, ◌%◌, ◌^◌, ◌==◌, ◌&&◌, ℕ, true, List, length, drop, slice_get, slice_index, Option, Some, None, IfSome, IfNone, false};
ghost use Rattle.std.specs.Iterator.{YieldsFirst, item_count};
ghost use Rattle.c8_pairs.specs.Pairs.{pairs_of, words_in, pairs_bytes, spelling};
ghost use Rattle.c8_pairs.specs.Reading.{pairs_at, well_after, count_in, are_run, is_begun};

/// The most inputs in a run.
pub const LONGEST_RUN: usize = 64;

/// The most pairs in a run.
pub const MOST_PAIRS: usize = 42;

/// Consecutive inputs of one player, at most 64, as pairs. A pair has three bytes: its length, and its
/// key set with the high byte first. `==` compares the bytes, the start and the length, not the inputs.
#[derive(Clone, Copy, Debug)]
pub struct Pairs<'a> {
    bytes: &'a [u8],
    /// How many inputs of the first pair come before the run.
    skip: usize,
    count: usize,
    ghost well: { well_after None (pairs_at bytes.now) ≡ true },
    ghost whole: { pairs_bytes (pairs_at bytes.now) ≡ bytes.now },
    ghost counts: { skip + count ≡ count_in (pairs_at bytes.now) },
    ghost begun: { is_begun skip (pairs_at bytes.now) ≡ true },
    ghost sets: { (i : ℕ) → slice_index (words_in (pairs_at bytes.now)) i < 2 ^ 16 },
    ghost short: { length bytes.now ≤ 3 * 42 },
    ghost low: { skip < 256 },
    ghost few: { count ≤ 64 },
}

impl<'a> Pairs<'a> {
    ghost use Rattle.c8_pairs.specs.Lent.{words, touched, spelled, words_left};

    /// Wraps bytes that are known to be the pairs of a run of `count` inputs. See [`Pairs::read`] for
    /// bytes that are not known to be.
    pub fn new(bytes: &'a [u8], count: usize) -> Pairs<'a>
        requires whole { length bytes.now % 3 ≡ 0 }
        requires short { length bytes.now ≤ 3 * MOST_PAIRS }
        requires few { count ≤ LONGEST_RUN }
        requires run { are_run (pairs_at bytes.now) count ≡ true }
        ensures slice { spelled result ≡ bytes.entry.now }
        ensures words { words result ≡ words_in (pairs_at bytes.entry.now) }
        ensures spells { spelling (words result) ≡ bytes.entry.now }
        ensures count { length (words result) ≡ count }
    {
        Pairs {
            bytes,
            skip: 0,
            count,
        }
    }

    /// Reads the run of `count` inputs from its bytes: at most 42 pairs of three bytes. Returns `None`
    /// if a pair has no inputs, if two neighbours have the same key set, or if the pairs do not have
    /// `count` inputs in all.
    pub fn read(bytes: &'a [u8], count: usize) -> Option<Pairs<'a>>
        requires whole { length bytes.now % 3 ≡ 0 }
        requires short { length bytes.now ≤ 3 * MOST_PAIRS }
        requires few { count ≤ LONGEST_RUN }
        ensures taken { IfSome result (λ _. are_run (pairs_at bytes.entry.now) count ≡ true) }
        ensures refused { IfNone result (are_run (pairs_at bytes.entry.now) count ≡ false) }
        ensures slice { IfSome result (λ run. spelled run ≡ bytes.entry.now) }
        ensures spells { IfSome result (λ run. spelling (words run) ≡ bytes.entry.now) }
        ensures count { IfSome result (λ run. length (words run) ≡ count) }
        ensures none { IfNone result ((words : List ℕ) → length words ≡ count
            → ((i : ℕ) → slice_index words i < 2 ^ 16) → spelling words ≡ bytes.entry.now → ⊥) }
    {
        if !is_run(bytes, count) {
            return None;
        }
        Some(Pairs::new(bytes, count))
    }

    /// Returns how many inputs there are, 0 to 64. Each is a set of 16 keys.
    pub fn len(&self) -> usize
        ensures count { result ≡ length (words self.now) }
        ensures few { result ≤ LONGEST_RUN }
        ensures sets { (i : ℕ) → slice_index (words self.now) i < 2 ^ 16 }
    {
        self.count
    }

    pub fn is_empty(&self) -> bool
        ensures { result ≡ (length (words self.now) == 0) }
    {
        self.count == 0
    }

    /// Returns how many inputs of the first pair come before the run; 0 for an empty run.
    pub fn skip(&self) -> usize
        ensures words { words self.now ≡ drop result (touched self.now) }
        ensures begun { is_begun result (pairs_of (touched self.now)) ≡ true }
    {
        self.skip
    }

    /// Returns the bytes of all pairs that the run touches, as they were received: at most 126.
    pub fn bytes(&self) -> &'a [u8]
        ensures slice { result.now ≡ spelled self.now }
        ensures spells { spelling (touched self.now) ≡ result.now }
        ensures short { length result.now ≤ 3 * MOST_PAIRS }
    {
        let Pairs { bytes, .. } = *self;
        bytes
    }

    /// Returns the input at a place, from 0. This walks over the pairs.
    pub fn get(&self, place: usize) -> u16
        requires { place < length (words self.now) }
        ensures { slice_get (words self.now) place ≡ Some result }
    {
        let (bytes, _) = begun_at(self.bytes, self.skip + place);
        match first_of(bytes) {
            Some(first) => first.keys,
            None => unreachable!(),
        }
    }

    /// Returns the inputs from a place on, borrowed from the same bytes. `place` may be the length.
    pub fn from_place(&self, place: usize) -> Pairs<'a>
        requires { place ≤ length (words self.now) }
        ensures words { words result ≡ drop place (words self.now) }
        ensures slice { (pairs : ℕ) × (spelled result ≡ drop (3 * pairs) (spelled self.now)) }
    {
        let (bytes, skip) = begun_at(self.bytes, self.skip + place);
        Pairs {
            bytes,
            skip,
            count: self.count - place,
        }
    }

    /// Iterates over the inputs in order.
    pub fn iter(&self) -> PairsIter<'a>
        ensures { words_left result ≡ words self.now }
    {
        let Some(First { times, keys, rest }) = first_of(self.bytes) else {
            return PairsIter {
                rest: self.bytes,
                times: 0,
                keys: 0,
            };
        };
        PairsIter {
            rest,
            times: times - self.skip,
            keys,
        }
    }
}

/// An iterator over the inputs of a run.
#[derive(Clone, Copy, Debug)]
pub struct PairsIter<'a> {
    rest: &'a [u8],
    /// How many inputs of the current pair are left; `keys` is its key set.
    times: usize,
    keys: u16,
    ghost well: { well_after None (pairs_at rest.now) ≡ true },
}

impl<'a> Iterator for PairsIter<'a> {
    type Item = u16;

    ghost use Rattle.c8_pairs.specs.Lent.{words_left};

    ghost next_gives = { YieldsFirst words_left };

    ghost remaining = { item_count words_left };

    fn next(&mut self) -> Option<u16> {
        if self.times > 0 {
            self.times -= 1;
            return Some(self.keys);
        }
        let First { times, keys, rest } = first_of(self.rest)?;
        *self = PairsIter {
            rest,
            times: times - 1,
            keys,
        };
        Some(keys)
    }
}

/// The first pair of some bytes, and the bytes after it.
#[derive(Clone, Copy)]
struct First<'a> {
    times: usize,
    keys: u16,
    rest: &'a [u8],
}

/// Returns the first pair, or `None` for fewer than three bytes.
#[tactic(auto, unfolding(crate::specs::Reading::pairs_at), using(crate::specs::checked::PairLaws::well_tail, crate::specs::checked::PairLaws::some_at))]
fn first_of(bytes: &[u8]) -> Option<First<'_>>
    ensures pair { IfSome result (λ first. pairs_at bytes.entry.now
        ≡ record { times = first.times; keys = first.keys } ∷ pairs_at first.rest.now) }
    ensures rest { IfSome result (λ first. first.rest.now ≡ drop 3 bytes.entry.now) }
    ensures shorter { IfSome result (λ first. length first.rest.now < length bytes.entry.now) }
    ensures few { IfSome result (λ first. first.times < 256) }
    ensures well { IfSome result (λ first. (last : Option ℕ)
        → well_after last (pairs_at bytes.entry.now) ≡ true
        → (0 < first.times) × (well_after None (pairs_at first.rest.now) ≡ true)) }
    ensures none { IfNone result (pairs_at bytes.entry.now ≡ []) }
{
    match bytes {
        [times, high, low, rest @ ..] => Some(First {
            times: usize::from(*times),
            keys: u16::from(*high) * 256 + u16::from(*low),
            rest,
        }),
        _ => None,
    }
}

/// Returns whether bytes are the pairs of a run of `count` inputs: no pair is empty, no two neighbours
/// have the same key set, and the pairs have `count` inputs in all. It ignores one or two bytes after
/// the last pair. It walks at most 42 pairs, and is private: other crates call [`Pairs::read`].
fn is_run(bytes: &[u8], count: usize) -> bool
    requires { length bytes.now ≤ 3 * MOST_PAIRS }
    ensures { result ≡ are_run (pairs_at bytes.now) count }
{
    is_run_after(None, bytes, count)
}

/// Returns whether bytes are pairs that may follow one with key set `last`, with `count` inputs in all.
fn is_run_after(last: Option<u16>, bytes: &[u8], count: usize) -> bool
    ensures { result ≡ (well_after last (pairs_at bytes.now)
        && (count_in (pairs_at bytes.now) == count)) }
{
    match first_of(bytes) {
        Some(First { times, keys, rest }) => times != 0
            && last != Some(keys)
            && times <= count
            && is_run_after(Some(keys), rest, count - times),
        None => count == 0,
    }
}

/// Returns the pairs from the one on that contains `place`, and how many of its inputs come before
/// `place`.
fn begun_at(bytes: &[u8], place: usize) -> (&[u8], usize)
    requires { place ≤ count_in (pairs_at bytes.now) }
    ensures words { drop result.1 (words_in (pairs_at result.0.now))
        ≡ drop place (words_in (pairs_at bytes.entry.now)) }
    ensures begun { is_begun result.1 (pairs_at result.0.now) ≡ true }
    ensures low { result.1 < 256 }
    ensures counts { result.1 + count_in (pairs_at bytes.entry.now)
        ≡ place + count_in (pairs_at result.0.now) }
    ensures well { (last : Option ℕ) → well_after last (pairs_at bytes.entry.now) ≡ true
        → well_after None (pairs_at result.0.now) ≡ true }
    ensures whole { pairs_bytes (pairs_at bytes.entry.now) ≡ bytes.entry.now
        → pairs_bytes (pairs_at result.0.now) ≡ result.0.now }
    ensures slice { (pairs : ℕ) × (result.0.now ≡ drop (3 * pairs) bytes.entry.now) }
    ensures short { length result.0.now ≤ length bytes.entry.now }
    ensures sets { ((i : ℕ) → slice_index (words_in (pairs_at bytes.entry.now)) i < 2 ^ 16)
        → (i : ℕ) → slice_index (words_in (pairs_at result.0.now)) i < 2 ^ 16 }
{
    match first_of(bytes) {
        Some(first) if first.times <= place => begun_at(first.rest, place - first.times),
        _ => (bytes, place),
    }
}
