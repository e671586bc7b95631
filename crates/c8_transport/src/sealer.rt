//! Seals the datagrams of one player or watcher, and opens the packets that come for it.
ghost use Rattle.std.specs.Prelude.{◌≡◌, ◌↔◌, ◌+◌, ◌-◌, ◌<◌, ℕ, List, [], ◌∷◌, ◌++◌, IsTrue, MatchOption, MatchResult, IfOk, Ok, Err, length, slice_index_or, slice_set};
ghost use Rattle.c8_transport.specs.Counters.{IsNew, IsNewest};
ghost use Rattle.c8_transport.specs.Given.{GivenValue, counters_of};
ghost use Rattle.c8_transport.specs.Opened.{IsSealing};
ghost use Rattle.c8_transport.specs.Sealer.{HasSealed, IsUnsealed, IsAddressed, IsTaking};

use crate::counters::Counters;
use crate::error::{NotTaken, Unsealable};
use crate::given::Given;
use crate::key::{LONGEST_OPEN, LONGEST_SEALED};
use crate::keys::Seal;
use crate::seen::Seen;
use c8_disk::GhostList;
use c8_wire::{Seat, view};
use std::marker::Model;

/// How many seats a match has: four players and two watchers.
const SEATS: usize = 6;

/// What was taken of a packet; the datagram is lent from it.
#[derive(Clone, Copy, Debug, PartialEq, Eq)]
pub struct Taken<'a> {
    /// The player or watcher that sealed it.
    pub from: Seat,
    pub counter: u64,
    /// Whether it is the newest that was taken from that sender so far.
    pub is_newest: bool,
    pub datagram: &'a [u8],
}

/// Seals datagrams, each with a counter of its own, and takes of each other player and watcher each counter at most once.
/// It has a fixed size and takes no memory.
#[derive(Drop)]
pub struct Sealer {
    seal: Seal,
    counters: Counters,
    /// The counters that were taken from each seat, by place.
    seen: [Seen; SEATS],
    taken: GhostList<Given>,
}

impl Model for Sealer {
    ghost use Rattle.c8_transport.specs.Sealer.{SealerValue, IsSealer};

    ghost Value = { SealerValue };

    ghost view = { λ s. record {
      seal = s.seal;
      next = s.counters.next;
      left = s.counters.left;
      taken = s.taken.items;
    } };

    ghost invariant = { λ s. IsSealer s.counters.next s.counters.left s.seen s.taken.items };
}

impl Sealer {
    /// Seals with these keys and counters. Nothing was taken yet.
    pub fn new(seal: Seal, counters: Counters) -> Sealer
        ensures { result ≡ record { seal = seal; next = counters.next; left = counters.left; taken = [] } }
    {
        Sealer {
            seal,
            counters,
            seen: nothing_seen(),
            taken: GhostList::new(),
        }
    }

    /// Writes the sealed packet of a datagram to the front of `out`, with the next counter and the key of its kind, and
    /// returns its length. After an error the sealer and `out` are as before.
    pub fn seal(
        &mut self,
        datagram: &[u8],
        out: &mut [u8; LONGEST_SEALED],
    ) -> Result<usize, Unsealable>
        ensures sealed { IfOk result (λ size. HasSealed self.old datagram.now out.new size self.new) }
        ensures refused { MatchResult result (λ _. Unit {0}) (λ why. IsUnsealed self.old datagram.now why
            × (self.new ≡ self.old) × (out.new ≡ out.old)) }
    {
        if datagram.len() > LONGEST_OPEN {
            return Err(Unsealable::Long);
        }
        let Some(key) = self.seal.keys.key_for(datagram) else {
            return Err(Unsealable::NoKey);
        };
        if self.counters.left == 0 {
            return Err(Unsealable::Spent);
        }
        let size = key.seal(self.counters.next, datagram, out);
        self.counters = self.counters.rest();
        Ok(size)
    }

    /// Takes the datagram of a packet, lent. `NotSealed` if the packet is not sealed with the key of its kind, or its
    /// datagram is none of this session to this seat; `SeenBefore` if its counter is not new among those of its sender.
    /// After an error the sealer is as before.
    pub fn open<'a>(&mut self, packet: &'a [u8]) -> Result<Taken<'a>, NotTaken>
        ensures taken { MatchResult result
            (λ taken. IsTaking self.old packet.now (Ok (record {
              from = taken.from.number;
              counter = taken.counter;
              datagram = taken.datagram.now;
            })) self.new)
            (λ why. IsTaking self.old packet.now (Err why) self.new) }
        ensures newest { IfOk result (λ taken. IsTrue taken.is_newest
            ↔ IsNewest (counters_of taken.from.number self.old.taken) taken.counter) }
    {
        let Some(opened) = self.seal.keys.open(packet) else {
            return Err(NotTaken::NotSealed);
        };
        let Some(from) = self.seal.sender_of(opened.datagram) else {
            return Err(NotTaken::NotSealed);
        };
        let Some(is_newest) = take_from(&mut self.seen, from, opened.counter) else {
            return Err(NotTaken::SeenBefore);
        };
        let given = Given::of(from, opened.counter, opened.datagram);
        self.taken = self.taken.and(&given);
        Ok(Taken {
            from,
            counter: opened.counter,
            is_newest,
            datagram: opened.datagram,
        })
    }
}

impl Seal {
    /// The player or watcher that a datagram is from, if it spells one of this session to this seat.
    fn sender_of(&self, datagram: &[u8]) -> Option<Seat>
        ensures { MatchOption result
            ((from : ℕ) → IsAddressed self.now.session self.now.seat.number from datagram.now → ⊥)
            (λ from. IsAddressed self.now.session self.now.seat.number from.number datagram.now) }
    {
        let Ok(datagram) = view(datagram) else {
            return None;
        };
        let header = datagram.header();
        if header.session() == self.session && header.to().number == self.seat.number {
            Some(header.from())
        } else {
            None
        }
    }
}

/// No counter was taken from any seat.
fn nothing_seen() -> [Seen; SEATS]
    ensures { (place : ℕ) → slice_index_or result place [] ≡ [] }
{
    [
        Seen::new(),
        Seen::new(),
        Seen::new(),
        Seen::new(),
        Seen::new(),
        Seen::new(),
    ]
}

/// The place of a seat, from 0.
fn place_of(seat: Seat) -> usize
    ensures is { result ≡ seat.number - 1 }
    ensures within { result < 6 }
{
    usize::from(seat.number - 1)
}

/// Takes a counter from a seat, and returns whether it is the newest; `None` if it is not new, and then nothing changes.
fn take_from(seen: &mut [Seen; SEATS], from: Seat, counter: u64) -> Option<bool>
    ensures size { length seen.old ≡ SEATS }
    ensures taken { MatchOption result
        ((IsNew (slice_index_or seen.old (from.number - 1) []) counter → ⊥) × (seen.new ≡ seen.old))
        (λ newest. IsNew (slice_index_or seen.old (from.number - 1) []) counter
        × (IsTrue newest ↔ IsNewest (slice_index_or seen.old (from.number - 1) []) counter)
        × (seen.new ≡ slice_set seen.old (from.number - 1)
        (slice_index_or seen.old (from.number - 1) [] ++ counter ∷ []))) }
{
    let of_sender = &mut seen[place_of(from)];
    let is_newest = of_sender.is_newest(counter);
    if of_sender.take(counter) {
        Some(is_newest)
    } else {
        None
    }
}
