//! What becomes of each packet.
ghost use Rattle.std.specs.Prelude.{◌≡◌, ◌≤◌, ◌<◌, ◌+◌, ◌/◌, ◌^◌, ◌⊎◌, ◌↔◌, [], IfOk, IsSome, IsTrue, length, false, Some, None};
ghost use Rattle.c8_relay.specs.Cookies.{cookie_of, HasShown};
ghost use Rattle.c8_relay.specs.Reading.{IsDatagram, IsJoin};
ghost use Rattle.c8_relay.specs.Seating.{seat_of, Expels, IsTold, KeepsOthers, SeatsNobody, IsServed, IsHeard, origin};
ghost use Rattle.c8_relay.specs.Standing.{IsAnswered, IsRouted, IsFair, IsReplied, IsReply, SeatsWhoAsks, SeatsWhoMay, slot_of};

use crate::address::{Address, Lane, Sender};
use crate::control::{ANSWER_LENGTH, COOKIE_LENGTH, Join, Route, Spoken, Status, read};
use crate::cookie::{KEY_LENGTH, cookie_of, has_shown};
use crate::seats::{Limits, Seated, Seats};
use crate::sitting::Cause;
use std::alloc::{AllocError, Global};
use std::hash::RandomState;
use std::marker::Model;

/// How many microseconds a cookie's slot of time lasts.
const SLOT: u64 = 64_000_000;

/// The most packets of a batch.
pub const BATCH: u32 = 64;

/// The most JOINs of addresses without a seat that are answered in a batch.
const STRANGERS: u32 = BATCH / 4;

/// What becomes of a packet.
#[derive(Clone, Copy)]
pub enum Fate {
    /// It goes to this address, as it is.
    Forward(Address),
    /// This answer goes to its sender.
    Answer([u8; ANSWER_LENGTH]),
    Dropped(Cause),
}

/// The rooms of a relay. It takes all its memory when it is made.
#[derive(Drop)]
pub struct Relay {
    /// The key of cookies, which nobody else has.
    key: [u8; KEY_LENGTH],
    seats: Seats,
    /// How many JOINs of addresses without a seat are still answered in this batch.
    strangers: u32,
}

impl Model for Relay {
    ghost use Rattle.c8_relay.specs.Standing.{Standing};

    ghost Value = { Standing };

    ghost view = { λ r. record { key = r.key; members = r.seats } };
}

impl Relay {
    /// Makes a relay without rooms, and takes its memory.
    pub fn new(
        alloc: Global,
        limits: Limits,
        hashing: RandomState,
        key: [u8; KEY_LENGTH],
    ) -> Result<Relay, AllocError>
        requires { limits.rooms < 2 ^ 32 }
        ensures key { IfOk result (λ relay. relay.key ≡ key) }
        ensures nobody { IfOk result (λ relay. relay.members ≡ []) }
    {
        Ok(Relay {
            key,
            seats: Seats::new(alloc, limits, hashing)?,
            strangers: STRANGERS,
        })
    }

    /// Begins a batch of at most [`BATCH`] packets. It may free a silent seat.
    pub fn begin_batch(&mut self, now: u64)
        ensures key { self.new.key ≡ self.old.key }
        ensures seats { Expels now self.old.members self.new.members }
    {
        self.strangers = STRANGERS;
        self.seats.expel(now, None);
    }

    /// How many rooms have a seat that is taken.
    pub fn rooms(&self) -> usize {
        self.seats.rooms()
    }

    /// How many seats are taken.
    pub fn seats(&self) -> usize
        ensures { result ≡ length self.now.members }
    {
        self.seats.len()
    }

    /// Frees the seats of a connection that has closed.
    pub fn close(&mut self, address: Address)
        ensures key { self.new.key ≡ self.old.key }
        ensures left { (lane : Lane) → seat_of self.new.members (record { address = address; lane = lane }) ≡ None }
        ensures others { (other : Sender) → (other.address ≡ address → ⊥) → seat_of self.new.members other ≡ seat_of self.old.members other }
        ensures nobody { (other : Sender) (seated : Seated) → seat_of self.new.members other ≡ Some seated → seat_of self.old.members other ≡ Some seated }
    {
        let lane = Lane::Players;
        self.seats.remove(Sender { address, lane });
        let lane = Lane::Watchers;
        self.seats.remove(Sender { address, lane });
    }

    /// Says what becomes of a packet that came from an address.
    pub fn take(&mut self, now: u64, from: Address, packet: &[u8]) -> Fate
        requires { now < 2 ^ 62 }
        ensures key { self.new.key ≡ self.old.key }
        ensures others { KeepsOthers now from self.old.members self.new.members }
        ensures seats { SeatsWhoAsks now from packet.now self.old self.new }
        ensures stays { (route : Route) → IsDatagram packet.now route → SeatsNobody self.old.members self.new.members }
        ensures heard { (route : Route) (mine : Seated) → IsDatagram packet.now route → seat_of self.old.members (record { address = from; lane = route.lane }) ≡ Some mine
            → mine.seat ≡ route.from → IsHeard now self.new.members from (origin route mine.name) }
        ensures unproved { (join : Join) → IsJoin packet.now join → (HasShown self.old.key (slot_of now) from join.cookie → ⊥) → self.new ≡ self.old }
        ensures fair { IsFair now from packet.now self.old self.new result }
        ensures member { (join : Join) → IsJoin packet.now join → IsSome (seat_of self.old.members (record { address = from; lane = join.place.lane })) → IsReplied result }
        ensures served { (route : Route) (to : Address) → IsDatagram packet.now route → IsServed now self.old.members from route to → result ≡ Fate.Forward to }
    {
        match read(packet) {
            Spoken::Datagram(route) => self.forward(now, from, route),
            Spoken::Join(join) => self.join(now, from, join),
            Spoken::Nothing => Fate::Dropped(Cause::Unknown),
        }
    }

    /// Says what becomes of a datagram.
    fn forward(&mut self, now: u64, from: Address, route: Route) -> Fate
        requires { now < 2 ^ 62 }
        ensures key { self.new.key ≡ self.old.key }
        ensures others { (other : Sender) → (other.address ≡ from → ⊥) → seat_of self.new.members other ≡ seat_of self.old.members other }
        ensures places { SeatsNobody self.old.members self.new.members }
        ensures heard { (mine : Seated) → seat_of self.old.members (record { address = from; lane = route.lane }) ≡ Some mine → mine.seat ≡ route.from → IsHeard now self.new.members from (origin route mine.name) }
        ensures fair { IsRouted now from route self.old self.new result }
        ensures served { (to : Address) → IsServed now self.old.members from route to → result ≡ Fate.Forward to }
    {
        match self.seats.route(now, from, route) {
            Ok(to) => Fate::Forward(to),
            Err(cause) => Fate::Dropped(cause),
        }
    }

    /// Says what becomes of a JOIN.
    fn join(&mut self, now: u64, from: Address, join: Join) -> Fate
        ensures key { self.new.key ≡ self.old.key }
        ensures others { KeepsOthers now from self.old.members self.new.members }
        ensures seats { SeatsWhoMay now from join self.old self.new }
        ensures unproved { (HasShown self.old.key (slot_of now) from join.cookie → ⊥) → self.new ≡ self.old }
        ensures fair { IsAnswered now from join self.old self.new result }
        ensures member { IsSome (seat_of self.old.members (record { address = from; lane = join.place.lane })) → IsReplied result }
    {
        let lane = join.place.lane;
        let address = from;
        if !self.admits(Sender { address, lane }) {
            return Fate::Dropped(Cause::Crowd);
        }
        let cookie = cookie_of(&self.key, from, now / SLOT);
        let status = self.status(now, from, join, &cookie);
        Fate::Answer(status.answer(&cookie))
    }

    /// Gives an address the place that it asks for, if it may have it.
    fn status(
        &mut self,
        now: u64,
        from: Address,
        join: Join,
        newest: &[u8; COOKIE_LENGTH],
    ) -> Status
        requires { newest.now ≡ cookie_of self.old.key from (slot_of now) }
        ensures key { self.new.key ≡ self.old.key }
        ensures others { KeepsOthers now from self.old.members self.new.members }
        ensures seats { SeatsWhoMay now from join self.old self.new }
        ensures unproved { (HasShown self.old.key (slot_of now) from join.cookie → ⊥) → self.new ≡ self.old }
        ensures reply { IsReply (HasShown self.old.key (slot_of now) from join.cookie)
            (IsTold now from join.place self.old.members self.new.members result) result }
    {
        if !has_shown(&self.key, now / SLOT, from, newest, &join.cookie) {
            return Status::Prove;
        }
        self.seats.sit(now, from, join.place)
    }

    /// Whether a JOIN of this sender may be answered in this batch.
    fn admits(&mut self, sender: Sender) -> bool
        ensures stays { self.new ≡ self.old }
        ensures member { IsSome (seat_of self.old.members sender) → IsTrue result }
        ensures crowd { result ≡ false → seat_of self.old.members sender ≡ None }
    {
        if self.seats.get(sender).is_some() {
            return true;
        }
        if self.strangers == 0 {
            return false;
        }
        self.strangers -= 1;
        true
    }
}
