//! Laws of runs and their spellings. Each is the contract of a function that does nothing.
ghost use Rattle.std.specs.Prelude.{◌≡◌, ◌<◌, ◌*◌, ◌%◌, ◌^◌, ℕ, List, length, slice_index, true};
ghost use Rattle.c8_pairs.specs.Reading.{pairs_at, are_run};
ghost use Rattle.c8_pairs.specs.Pairs.{pairs_of, words_in, spelling};

/// The pairs of inputs stand for exactly these inputs, and different runs have different spellings.
pub fn spellings_are_of_one_run()
    ensures says { (words : List ℕ) → words_in (pairs_of words) ≡ words }
    ensures only { (words others : List ℕ) → ((i : ℕ) → slice_index words i < 2 ^ 16)
        → ((i : ℕ) → slice_index others i < 2 ^ 16) → spelling words ≡ spelling others
        → words ≡ others }
{}

/// The spelling of a run reads back as that run: its bytes have the run's pairs and pass as a run of
/// that length.
pub fn what_is_spelled_is_a_run()
    ensures pairs { (words : List ℕ) → ((i : ℕ) → slice_index words i < 2 ^ 16)
        → pairs_at (spelling words) ≡ pairs_of words }
    ensures run { (words : List ℕ) → ((i : ℕ) → slice_index words i < 2 ^ 16)
        → are_run (pairs_at (spelling words)) (length words) ≡ true }
{}

/// Bytes whose pairs are a run of `count` inputs are the spelling of that run. Each input has 16 bits.
pub fn a_run_is_spelled_by_its_bytes()
    ensures spells { (bytes : List ℕ) (count : ℕ) → length bytes % 3 ≡ 0
        → ((i : ℕ) → slice_index bytes i < 2 ^ 8) → are_run (pairs_at bytes) count ≡ true
        → spelling (words_in (pairs_at bytes)) ≡ bytes }
    ensures count { (bytes : List ℕ) (count : ℕ) → length bytes % 3 ≡ 0
        → ((i : ℕ) → slice_index bytes i < 2 ^ 8) → are_run (pairs_at bytes) count ≡ true
        → length (words_in (pairs_at bytes)) ≡ count }
    ensures sets { (bytes : List ℕ) → ((i : ℕ) → slice_index bytes i < 2 ^ 8)
        → (i : ℕ) → slice_index (words_in (pairs_at bytes)) i < 2 ^ 16 }
{}

/// The spelling of a run has three bytes for each pair.
pub fn a_pair_has_three_bytes()
    ensures { (words : List ℕ) → length (spelling words) ≡ 3 * length (pairs_of words) }
{}
