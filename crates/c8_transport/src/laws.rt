//! What callers may rely on that no single call says. Each law is the contract of a function that does nothing.

ghost use Rattle.std.specs.Prelude.{◌≡◌, ℕ, ◌<◌, ◌^◌, List, []};
ghost use Rattle.c8_transport.specs.Seal.{sealed};
ghost use Rattle.std.specs.List.{Contains};
ghost use Rattle.c8_transport.specs.Counters.{AreOnce};
ghost use Rattle.c8_transport.specs.Given.{GivenValue, counters_of};
ghost use Rattle.c8_transport.specs.Sealer.{SealerValue, IsFor, AreTakings};

/// What is sealed opens, and as itself: a packet is the sealing of one counter and one datagram at most. So
/// [`crate::Key::open`] of a sealing returns Some, with these two.
pub fn what_is_sealed_opens()
    ensures datagram { (key one other : List ℕ) (first last : ℕ)
        → sealed key first one ≡ sealed key last other → one ≡ other }
    ensures counter { (key one other : List ℕ) (first last : ℕ) → first < 2 ^ 64 → last < 2 ^ 64
        → sealed key first one ≡ sealed key last other → first ≡ last }
{}

/// Over any packets, in any order and repeated at will, each counter of a sender is taken at most once, and what is taken
/// was sealed for this seat by one of these packets.
pub fn each_packet_counts_once()
    ensures once { (old new : SealerValue) (came : List (List ℕ)) (seat : ℕ) → old.taken ≡ []
        → AreTakings came old new → AreOnce (counters_of seat new.taken) }
    ensures sealed { (old new : SealerValue) (came : List (List ℕ)) (given : GivenValue) → old.taken ≡ []
        → AreTakings came old new → Contains new.taken given
        → (packet : List ℕ) × Contains came packet × IsFor old.seal packet given }
{}
