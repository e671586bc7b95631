//! Who gets a seat, and where datagrams go.
ghost use Rattle.std.specs.Prelude.{◌≡◌, ◌≤◌, ◌<◌, ◌+◌, ◌^◌, ◌∷◌, ℕ, [], Ok, Some, None, IfOk, IfErr, IfSome, IsTrue, MatchBool, max, ◌⊎◌};
ghost use Rattle.c8_relay.specs.Budget.{Pass};
ghost use Rattle.c8_relay.specs.Seating.{seat_of, place_of, sender_at, IsHolder, Sits, Listens, KeepsOthers, SeatsOnly, SeatsNobody, Vacates, Shares, IsServed, IsPaid, IsLost, Expels, Moves, IsTold, IsHeard, origin};

use crate::address::{Address, Place, Sender};
use crate::bucket::Bucket;
use crate::control::{Route, Status};
use crate::seats::{Seated, Seats};

/// Why a packet goes nowhere.
#[derive(Clone, Copy)]
pub enum Cause {
    /// It is neither a sealed packet nor a JOIN.
    Unknown,
    /// Its sender does not have the seat that it names.
    Stranger,
    /// Nobody who was heard sits in the seat that it is for.
    Nobody,
    /// Its sender has used up its budget.
    TooFast,
    /// It is one JOIN of strangers too many.
    Crowd,
}

impl Seats {
    /// The address of who sits in a place and was heard.
    pub fn listener(&self, now: u64, place: Place) -> Option<Address>
        ensures listens { IfSome result (λ address. Listens now self.now address place) }
        ensures found { (address : Address) → Listens now self.now address place → result ≡ Some address }
    {
        let address = self.holder(place)?;
        let lane = place.lane;
        let seated = self.get(Sender { address, lane })?;
        if seated.name != place.name || seated.seat != place.seat || seated.is_silent(now) {
            return None;
        }
        Some(address)
    }

    /// Frees a place.
    pub fn vacate(&mut self, place: Place)
        ensures free { IsHolder self.new place None }
        ensures others { Vacates self.old self.new place }
    {
        let Some(address) = self.holder(place) else {
            return;
        };
        let lane = place.lane;
        let sender = Sender { address, lane };
        let Some(seated) = self.get(sender) else {
            return;
        };
        if seated.name != place.name {
            return;
        }
        if seated.seat != place.seat {
            return;
        }
        self.remove(sender);
    }

    /// Takes a place for an address, which leaves the one that it had in this lane. Returns whether there was memory for it.
    pub fn take_place(&mut self, now: u64, address: Address, place: Place) -> bool
        ensures others { (other : Sender) (seated : Seated) → (other.address ≡ address → ⊥) → seat_of self.old other ≡ Some seated
            → (place_of other seated ≡ place → ⊥) → seat_of self.new other ≡ Some seated }
        ensures only { SeatsOnly address place self.old self.new }
        ensures sits { IsTrue result → IsHeard now self.new address place }
    {
        let lane = place.lane;
        let sender = Sender { address, lane };
        self.vacate(place);
        self.remove(sender);
        let seated = Seated {
            name: place.name,
            seat: place.seat,
            heard: now,
            bucket: Bucket::FULL,
        };
        self.add(sender, seated)
    }

    /// Notes that an address was heard in a place, and returns whether it sits there.
    pub fn renew(&mut self, now: u64, address: Address, place: Place) -> bool
        ensures { MatchBool result
            (IsHeard now self.new address place × SeatsNobody self.old self.new
            × ((other : Sender) → (other.address ≡ address → ⊥) → seat_of self.new other ≡ seat_of self.old other))
            ((self.new ≡ self.old) × (Sits self.old address place → ⊥)) }
    {
        let lane = place.lane;
        let sender = Sender { address, lane };
        let Some(mine) = self.get(sender) else {
            return false;
        };
        if mine.name != place.name || mine.seat != place.seat {
            return false;
        }
        let mut heard = mine;
        heard.heard = now;
        self.note(sender, heard);
        true
    }

    /// Frees a silent seat, if there is no room for another one. Returns whether there is room then.
    pub fn make_room(&mut self, now: u64, address: Address, place: Place) -> bool
        ensures { Expels now self.old self.new }
    {
        let is_crowded = self.is_crowded(address, place);
        if !is_crowded && !self.is_full(place.name) {
            return true;
        }
        let network = address.network();
        self.expel(now, if is_crowded { Some(network) } else { None });
        !self.is_crowded(address, place) && !self.is_full(place.name)
    }

    /// Takes a place in which nobody was heard, if there is room.
    fn enter(&mut self, now: u64, address: Address, place: Place) -> Status
        requires { Sits self.old address place → ⊥ }
        ensures others { Moves now address place self.old self.new }
        ensures only { SeatsOnly address place self.old self.new }
        ensures told { IsTold now address place self.old self.new result }
    {
        if !self.make_room(now, address, place) {
            return Status::Full;
        }
        if self.take_place(now, address, place) {
            Status::Joined
        } else {
            Status::Full
        }
    }

    /// Gives an address the place that it asks for, if it may have it.
    pub fn sit(&mut self, now: u64, address: Address, place: Place) -> Status
        ensures others { KeepsOthers now address self.old self.new }
        ensures only { SeatsOnly address place self.old self.new }
        ensures told { IsTold now address place self.old self.new result }
    {
        if self.renew(now, address, place) {
            return Status::Joined;
        }
        match self.listener(now, place) {
            Some(_) => Status::Busy,
            None => self.enter(now, address, place),
        }
    }

    /// Finds the addressee of a datagram, and charges its sender for it.
    pub fn route(&mut self, now: u64, from: Address, route: Route) -> Result<Address, Cause>
        requires { now < 2 ^ 62 }
        ensures others { (other : Sender) → (other.address ≡ from → ⊥) → seat_of self.new other ≡ seat_of self.old other }
        ensures places { SeatsNobody self.old self.new }
        ensures heard { (mine : Seated) → seat_of self.old (record { address = from; lane = route.lane }) ≡ Some mine → mine.seat ≡ route.from → IsHeard now self.new from (origin route mine.name) }
        ensures shared { IfOk result (λ to. Shares self.old from route to) }
        ensures served { (to : Address) → IsServed now self.old from route to → result ≡ Ok to }
        ensures paid { IfOk result (λ _. IsPaid now self.old self.new (record { address = from; lane = route.lane })) }
        ensures lost { IfErr result (IsLost now self.old from route) }
    {
        let lane = route.lane;
        let sender = Sender {
            address: from,
            lane,
        };
        let Some(mine) = self.get(sender) else {
            return Err(Cause::Stranger);
        };
        if mine.seat != route.from {
            return Err(Cause::Stranger);
        }
        let place = Place {
            name: mine.name,
            lane,
            seat: route.to,
        };
        let listener = self.listener(now, place);
        let mut heard = mine;
        heard.heard = now;
        let result = heard.bucket.charge(now, listener);
        self.note(sender, heard);
        result
    }
}

impl Bucket {
    /// Takes the cost of a datagram to a listener.
    fn charge(&mut self, now: u64, listener: Option<Address>) -> Result<Address, Cause>
        requires { now < 2 ^ 62 }
        ensures paid { IfOk result (λ to. (listener ≡ Some to) × (self.new.full_at ≡ max self.old.full_at now + 1_000) × Pass self.old.full_at (now ∷ [])) }
        ensures carried { (to : Address) → listener ≡ Some to → self.old.full_at + 1_000 ≤ now + 128_000 → result ≡ Ok to }
        ensures lost { IfErr result (λ cause. ((listener ≡ None) × (cause ≡ Cause.Nobody))
            ⊎ ((cause ≡ Cause.TooFast) × (now + 128_000 < self.old.full_at + 1_000))) }
    {
        let Some(to) = listener else {
            return Err(Cause::Nobody);
        };
        if !self.spend(now) {
            return Err(Cause::TooFast);
        }
        Ok(to)
    }
}
