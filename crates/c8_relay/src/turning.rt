//! One packet through a relay.
ghost use Rattle.std.specs.Prelude.{◌≡◌, ◌<◌, ◌^◌, List, ℕ, [], None};
ghost use Rattle.c8_relay.specs.Honest.{IsHonest};
ghost use Rattle.c8_relay.specs.Seating.{Expels, seat_of};
ghost use Rattle.c8_relay.specs.Standing.{Standing};
ghost use Rattle.c8_relay.specs.Turns.{IsTurn};
ghost use Rattle.c8_relay.specs.declared.address.Lane.{Lane};
ghost use Rattle.c8_relay.specs.declared.address.Sender.{Sender};
ghost use Rattle.c8_relay.specs.declared.sitting.Cause.{Cause};
ghost use Rattle.c8_relay.specs.declared.turning.Turned.TheVariants.{Idle, Dropped};

use crate::address::Address;
use crate::ether::{Ether, LONGEST_READ};
use crate::relay::{Fate, Relay};
use crate::sitting::Cause;

/// What came of one turn.
#[derive(Clone, Copy)]
pub enum Turned {
    /// No packet had come.
    Idle,
    /// A datagram was sent on.
    Carried,
    /// A JOIN was answered.
    Answered,
    Dropped(Cause),
}

/// Begins a batch of at most [`crate::BATCH`] turns.
pub fn begin<E: Ether>(relay: &mut Relay, ether: &E, now: u64)
    requires { IsHonest relay.old (E.received ether.now) (E.sent ether.now) }
    ensures honest { IsHonest relay.new (E.received ether.now) (E.sent ether.now) }
    ensures seats { Expels now relay.old.members relay.new.members }
{
    relay.begin_batch(now);
}

/// Frees the seats of a connection that has closed.
pub fn leave<E: Ether>(relay: &mut Relay, ether: &E, address: Address)
    requires { IsHonest relay.old (E.received ether.now) (E.sent ether.now) }
    ensures honest { IsHonest relay.new (E.received ether.now) (E.sent ether.now) }
    ensures left { (lane : Lane) → seat_of relay.new.members (record { address = address; lane = lane }) ≡ None }
    ensures others { (other : Sender) → (other.address ≡ address → ⊥)
        → seat_of relay.new.members other ≡ seat_of relay.old.members other }
{
    relay.close(address);
}

/// Takes the next packet, and sends what [`Relay::take`] says of it. `Idle` if none had come; a dropped packet sends nothing.
pub fn turn<E: Ether>(relay: &mut Relay, ether: &mut E, now: u64) -> Turned
    requires now { now < 2 ^ 62 }
    requires honest { IsHonest relay.old (E.received ether.old) (E.sent ether.old) }
    ensures honest { IsHonest relay.new (E.received ether.new) (E.sent ether.new) }
    ensures idle { result ≡ Idle
        → (E.received ether.new ≡ E.received ether.old) × (E.sent ether.new ≡ E.sent ether.old) }
    ensures turn { IsTurn now relay.old relay.new (E.received ether.old) (E.received ether.new) (E.sent ether.old) (E.sent ether.new) result }
    ensures quiet { (cause : Cause) → result ≡ Dropped cause → E.sent ether.new ≡ E.sent ether.old }
{
    let mut packet = [0; LONGEST_READ];
    let Some((size, from)) = ether.receive(&mut packet) else {
        return Turned::Idle;
    };
    let packet = &packet[..size];
    match relay.take(now, from, packet) {
        Fate::Forward(to) => {
            ether.send(to, packet);
            Turned::Carried
        }
        Fate::Answer(answer) => {
            ether.send(from, &answer);
            Turned::Answered
        }
        Fate::Dropped(cause) => Turned::Dropped(cause),
    }
}

/// A relay without seats that has done nothing is honest.
pub fn honest_at_first()
    ensures { (key : List ℕ) → IsHonest (record { key = key; members = [] }) [] [] }
{}
