//! Who sits where.
ghost use Rattle.std.specs.Prelude.{◌≡◌, ◌≤◌, ◌<◌, ◌+◌, ◌^◌, [], Some, None, IfOk, IfSome, IsSomeAnd, MatchBool, Bool, length, true, false};
ghost use Rattle.c8_relay.specs.Seating.{seat_of, place_of, Changes, Stays, Expels, IsSilent, IsHolder};

use crate::address::{Address, Lane, Place, Sender};
use crate::bucket::Bucket;
use crate::control::MOST_SEATS;
use crate::tally::Tally;
use std::alloc::{AllocError, Global};
use std::collections::HashMap;
use std::hash::RandomState;
use std::marker::Model;

/// After this many microseconds without a packet from its address a seat is silent.
pub const SILENCE: u64 = 3_000_000;

/// The seat that a sender has.
#[derive(Clone, Copy)]
pub struct Seated {
    /// The room's name.
    pub name: u128,
    /// From 1 to 6.
    pub seat: u8,
    /// When its address was heard last, in microseconds.
    pub heard: u64,
    pub bucket: Bucket,
}

impl Seated {
    /// Whether nothing has come from its address for [`SILENCE`].
    pub fn is_silent(&self, now: u64) -> bool
        ensures { MatchBool result (IsSilent now self.now) (now < self.now.heard + SILENCE) }
    {
        now.saturating_sub(self.heard) >= SILENCE
    }

    /// The place of this seat.
    pub fn place(&self, lane: Lane) -> Place
        ensures { result ≡ record { name = self.now.name; lane = lane; seat = self.now.seat } }
    {
        Place {
            name: self.name,
            lane,
            seat: self.seat,
        }
    }
}

/// How much there may be of what.
#[derive(Clone, Copy)]
pub struct Limits {
    pub rooms: usize,
    /// The most seats of an IPv4 address, or of an IPv6 network of 64 bits.
    pub seats_of_host: u32,
}

/// After a search for a silent seat there is none for this many microseconds.
const SEARCH_EVERY: u64 = 10_000;

/// A map that is at most half full makes room for a new key in place, so it takes no memory however often keys come and go.
const SLACK: usize = 2;

/// Who sits where: by the sender, and by the place.
#[derive(Drop)]
pub struct Seats {
    members: HashMap<Sender, Seated, RandomState>,
    places: HashMap<Place, Address, RandomState>,
    /// How many seats of each room are taken, by its name.
    rooms: Tally,
    /// How many seats each host has, by its network.
    hosts: Tally,
    limits: Limits,
    /// When a silent seat was looked for last, in microseconds.
    searched: u64,
}

impl Model for Seats {
    ghost use Rattle.std.specs.Prelude.{List};
    ghost use Rattle.c8_relay.specs.declared.address.Sender.{Sender};
    ghost use Rattle.c8_relay.specs.declared.seats.Seated.{Seated};
    ghost use Rattle.c8_relay.specs.Seating.{IsIndexed};

    ghost Value = { List (Sender × Seated) };

    ghost view = { λ s. s.members.entries };

    ghost invariant = { λ s. IsIndexed s.members.entries s.places.entries };
}

impl Seats {
    /// Takes memory for as much as the limits allow.
    pub fn new(alloc: Global, limits: Limits, hashing: RandomState) -> Result<Seats, AllocError>
        requires { limits.rooms < 2 ^ 32 }
        ensures { IfOk result (λ s. s ≡ []) }
    {
        let seats = SLACK * limits.rooms * usize::from(MOST_SEATS);
        Ok(Seats {
            members: HashMap::with_capacity_and_hasher(alloc, seats, hashing)?,
            places: HashMap::with_capacity_and_hasher(alloc, seats, hashing)?,
            rooms: Tally::new(alloc, SLACK * limits.rooms, hashing)?,
            hosts: Tally::new(alloc, seats, hashing)?,
            limits,
            searched: 0,
        })
    }

    /// The seat of a sender.
    pub fn get(&self, sender: Sender) -> Option<Seated>
        ensures { result ≡ seat_of self.now sender }
    {
        self.members.get(&sender).copied()
    }

    /// How many seats are taken.
    pub fn len(&self) -> usize
        ensures { result ≡ length self.now }
    {
        self.members.len()
    }

    /// How many rooms have a seat that is taken.
    pub fn rooms(&self) -> usize {
        self.rooms.len()
    }

    /// Whether the host of an address has its share of the seats, not counting the place that it asks for.
    pub fn is_crowded(&self, address: Address, place: Place) -> bool {
        let network = address.network();
        let lane = place.lane;
        let has_own = self.get(Sender { address, lane }).is_some();
        let own = match self.holder(place) {
            Some(holder) => u32::from(holder.network() == network),
            None => 0,
        };
        !has_own && self.hosts.count(network) >= self.limits.seats_of_host.saturating_add(own)
    }

    /// Whether there is no room for one more seat in a room of this name.
    pub fn is_full(&self, name: u128) -> bool {
        let has_rooms = self.rooms.count(name) > 0 || self.rooms.len() < self.limits.rooms;
        let has_seats = self.members.len() / usize::from(MOST_SEATS) < self.limits.rooms;
        !has_rooms || !has_seats
    }

    /// A silent sender of a network, or of any if it is `None`. At most one search in [`SEARCH_EVERY`] is made.
    fn silent(&mut self, now: u64, network: Option<u128>) -> Option<Sender>
        ensures silent { IfSome result (λ sender. (seated : Seated) → seat_of self.old sender ≡ Some seated → IsSilent now seated) }
        ensures stays { self.new ≡ self.old }
    {
        if now < self.searched.saturating_add(SEARCH_EVERY) {
            return None;
        }
        self.searched = now;
        for (sender, seated) in self.members.iter() {
            if seated.is_silent(now)
                && network.unwrap_or(sender.address.network()) == sender.address.network()
            {
                return Some(*sender);
            }
        }
        None
    }

    /// Frees one silent seat of a network, or of any network if it is `None`.
    pub fn expel(&mut self, now: u64, network: Option<u128>)
        ensures { Expels now self.old self.new }
    {
        if let Some(silent) = self.silent(now, network) {
            self.remove(silent);
        }
    }

    /// The address of who sits in a place.
    pub fn holder(&self, place: Place) -> Option<Address>
        ensures { IsHolder self.now place result }
    {
        self.places.get(&place).copied()
    }

    /// Notes what is new about a seat that a sender has.
    pub fn note(&mut self, sender: Sender, seated: Seated)
        requires { IsSomeAnd (seat_of self.old sender) (λ was. place_of sender was ≡ place_of sender seated) }
        ensures { Changes self.old self.new sender (Some seated) }
    {
        if let Some(was) = self.members.get_mut(&sender) {
            *was = seated;
        }
    }

    /// Removes the seat of a sender, and returns it.
    pub fn remove(&mut self, sender: Sender) -> Option<Seated>
        ensures removed { result ≡ seat_of self.old sender }
        ensures changes { Changes self.old self.new sender None }
    {
        let Some(seated) = self.members.remove(&sender) else {
            return None;
        };
        self.places.remove(&seated.place(sender.lane));
        self.rooms.remove(seated.name);
        self.hosts.remove(sender.address.network());
        Some(seated)
    }

    /// Gives a free place to a sender that has no seat. Returns whether there was memory for it.
    pub fn add(&mut self, sender: Sender, seated: Seated) -> bool
        requires free { IsHolder self.old (place_of sender seated) None }
        requires without { seat_of self.old sender ≡ None }
        ensures { MatchBool result (Changes self.old self.new sender (Some seated)) (Stays self.old self.new) }
    {
        let place = seated.place(sender.lane);
        let Ok(_) = self.members.insert(sender, seated) else {
            return false;
        };
        let Ok(_) = self.places.insert(place, sender.address) else {
            self.members.remove(&sender);
            return false;
        };
        self.rooms.add(seated.name);
        self.hosts.add(sender.address.network());
        true
    }
}
