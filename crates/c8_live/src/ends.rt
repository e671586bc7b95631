//! The two ends of an inlet.
ghost use Rattle.std.specs.Prelude.{◌≡◌, ◌+◌, ◌≤◌, ◌<◌, [], ◌∷◌, ◌++◌, length, IsOk, IfOk, OnOk, IfErr, IfSome, IfNone, IsSomeAnd};
ghost use mathlib.Core.List.{IsPrefix};

use crate::packet::Packet;
use rtrb::{Consumer, Finished, Producer, PushError, RingBuffer};
use std::alloc::{AllocError, Global};
use std::marker::Model;

/// The end of an inlet that puts packets in. It can move to another thread.
#[derive(Drop)]
pub struct Putter {
    producer: Producer<Packet>,
}

impl Model for Putter {
    ghost use Rattle.c8_live.specs.Inlet.{PutterValue};
    ghost use Rattle.c8_live.specs.Seen.{putter_seen};

    ghost Value = { PutterValue };

    ghost view = { λ p. putter_seen p.producer };
}

/// The end of an inlet that takes packets out. It can move to another thread.
#[derive(Drop)]
pub struct Taker {
    consumer: Consumer<Packet>,
}

impl Model for Taker {
    ghost use Rattle.c8_live.specs.Inlet.{TakerValue};
    ghost use Rattle.c8_live.specs.Seen.{taker_seen};

    ghost Value = { TakerValue };

    ghost view = { λ t. taker_seen t.consumer };
}

/// The rest of a finished putter. It knows all packets that were ever put, and can move to the taker's thread.
#[derive(Drop)]
pub struct Ended {
    finished: Finished<Packet>,
}

impl Model for Ended {
    ghost use Rattle.c8_live.specs.Inlet.{EndedValue};
    ghost use Rattle.c8_live.specs.Seen.{ended_seen};

    ghost Value = { EndedValue };

    ghost view = { λ e. ended_seen e.finished };
}

/// Makes an inlet with room for `places` packets, and returns its two ends. Fails only if memory is refused.
pub fn inlet(alloc: Global, places: usize) -> Result<(Putter, Taker), AllocError>
    ensures pair { IfOk result (λ ends. ends.0.inlet ≡ ends.1.inlet) }
    ensures places { IfOk result (λ ends. ends.0.inlet.places ≡ places) }
    ensures put { IfOk result (λ ends. (ends.0.put ≡ []) × (ends.0.free ≡ places)) }
    ensures taken { IfOk result (λ ends. (ends.1.taken ≡ []) × (ends.1.seen ≡ [])) }
{
    let (producer, consumer) = RingBuffer::new(alloc, places)?;
    Ok((Putter { producer }, Taker { consumer }))
}

impl Putter {
    /// Puts a packet in. Without a free place it gives the packet back, and nothing is put.
    pub fn put(&mut self, packet: Packet) -> Result<(), Packet>
        ensures inlet { self.new.inlet ≡ self.old.inlet }
        ensures ok { OnOk result (self.new.put ≡ self.old.put ++ packet ∷ []) }
        ensures err { IfErr result (λ back. (back ≡ packet) × (self.new.put ≡ self.old.put)) }
        ensures free { OnOk result (self.old.free ≤ self.new.free + 1) }
        ensures full { IfErr result (λ _. self.new.free ≡ 0) }
        ensures succeeds { 0 < self.old.free → IsOk result }
    {
        match self.producer.push(packet) {
            Ok(()) => Ok(()),
            Err(PushError::Full(packet)) => Err(packet),
        }
    }

    /// Ends putting, and returns an end that knows all packets that were put. `None` if the taker was dropped before.
    pub fn finish(self) -> Option<Ended>
        ensures pair { IfSome result (λ ended. ended.inlet ≡ self.inlet) }
        ensures sent { IfSome result (λ ended. ended.put ≡ self.put) }
    {
        let finished = self.producer.finish()?;
        Some(Ended { finished })
    }
}

impl Taker {
    /// Takes the oldest packet out. `None` if it sees no packet; then nothing is taken.
    pub fn take(&mut self) -> Option<Packet>
        ensures inlet { self.new.inlet ≡ self.old.inlet }
        ensures some { IfSome result (λ packet. self.new.taken ≡ self.old.taken ++ packet ∷ []) }
        ensures none { IfNone result ((self.new.taken ≡ self.old.taken) × (self.new.seen ≡ [])) }
        ensures oldest { 0 < length self.old.seen
            → IsSomeAnd result (λ packet. self.old.seen ≡ packet ∷ self.new.seen) }
    {
        // The contract of `pop` does not say that it looks for new packets only when none was seen before.
        if self.consumer.cached_slots() == 0 && self.consumer.slots() == 0 {
            return None;
        }
        Some(self.consumer.pop_known())
    }
}

/// Returns how many packets are inside, for a caller that has both ends. It puts and takes nothing. All that was put is
/// what was taken, then what is inside; each other place is known to be free.
pub fn beside(putter: &mut Putter, taker: &mut Taker) -> usize
    requires { putter.old.inlet ≡ taker.old.inlet }
    ensures putter { (putter.new.inlet ≡ putter.old.inlet) × (putter.new.put ≡ putter.old.put) }
    ensures taker { (taker.new.inlet ≡ taker.old.inlet) × (taker.new.taken ≡ taker.old.taken) }
    ensures inside { result ≡ length taker.new.seen }
    ensures free { putter.new.inlet.places ≤ putter.new.free + result }
    ensures whole { putter.new.put ≡ taker.new.taken ++ taker.new.seen }
    ensures begins { IsPrefix taker.new.taken putter.new.put }
    ensures all { result ≡ 0 → taker.new.taken ≡ putter.new.put }
{
    putter.producer.slots_beside(&mut taker.consumer);
    taker.consumer.slots_beside(&mut putter.producer)
}

/// Returns how many packets are inside, for a caller with the taker and what the putter left. It takes nothing. All
/// that was ever put is what was taken, then what is inside.
pub fn after(ended: &mut Ended, taker: &mut Taker) -> usize
    requires { ended.old.inlet ≡ taker.old.inlet }
    ensures ended { ended.new ≡ ended.old }
    ensures taker { (taker.new.inlet ≡ taker.old.inlet) × (taker.new.taken ≡ taker.old.taken) }
    ensures inside { result ≡ length taker.new.seen }
    ensures whole { ended.new.put ≡ taker.new.taken ++ taker.new.seen }
    ensures begins { IsPrefix taker.new.taken ended.new.put }
    ensures all { result ≡ 0 → taker.new.taken ≡ ended.new.put }
{
    taker.consumer.slots_after(&mut ended.finished)
}
