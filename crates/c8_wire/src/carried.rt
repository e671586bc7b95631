//! How many inputs fit into one datagram.
ghost use Rattle.std.specs.Prelude.{◌≡◌, ◌≤◌, ℕ, true, length, take};
ghost use Rattle.c8_wire.specs.Packet.{has_few_stretches};
ghost use Rattle.c8_wire.specs.Carried.{are_carried, fits_in};

use crate::sizes::LONGEST_RUN;
use c8_game::WireVersion;

/// Returns how many inputs of `words`, from the first on, fit into one datagram: at most 64, in version
/// 2 in at most 42 stretches of equal key sets. At least 1 unless `words` is empty.
pub fn fits(version: WireVersion, words: &[u16]) -> usize
    ensures value { result ≡ fits_in version words.now }
    ensures within { result ≤ length words.now }
    ensures few { result ≤ LONGEST_RUN }
    ensures room { has_few_stretches version (take result words.now) ≡ true }
    ensures most { (n : ℕ) → n ≤ length words.now → are_carried version (take n words.now) ≡ true
        → n ≤ result }
{
    match version {
        WireVersion::One => words.len().min(LONGEST_RUN),
        WireVersion::Two => c8_pairs::fits(words),
    }
}
