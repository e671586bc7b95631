//! The network's thread: it moves packets, and never waits for the machine.
ghost use Rattle.std.specs.Prelude.{◌≡◌, ◌≤◌, length};
ghost use Rattle.c8_live.specs.Parts.{IsHandedOn};
ghost use Rattle.c8_transport.specs.Wire.{MayTake};

use crate::counters::Counters;
use crate::ends::{Putter, Taker};
use crate::laws::handings_on_join;
use crate::packet::Packet;
use c8_transport::{Gate, LONGEST_PACKET, Wire, WireFailed, Worker};
use c8_wire::{LONGEST_DATAGRAM, Seat, view};
use std::sync::Wait;
use std::time::Duration;

/// How many packets an inlet between the two workers holds.
pub const PLACES: usize = 64;

/// The longest wait of the net worker for a packet, in milliseconds. Then it checks whether it has to end.
const LONGEST_WAIT: u64 = 20;

/// Moves packets from the wire into the inbox, and from the outbox to the wire, until the gate ends it. If the inbox is
/// full, the packet is lost and counted. When no packet is left at the wire, it waits there for at most 20 ms. If the
/// outbox must not wait that long, whoever fills it ends the wait. The error is the wire's; packets that were moved
/// before it stay moved.
pub fn net_worker<R: Wait, W: Wire, G: Gate>(
    rt: &R,
    wire: &mut W,
    outbox: &mut Taker,
    inbox: &mut Putter,
    counters: &Counters,
    gate: &G,
) -> Result<(), WireFailed>
    ensures sent { IsHandedOn outbox.old.taken outbox.new.taken
        (W.sent wire.old) (W.sent wire.new) }
    ensures received { IsHandedOn (W.received wire.old) (W.received wire.new)
        inbox.old.put inbox.new.put }
    ensures outbox { outbox.new.inlet ≡ outbox.old.inlet }
    ensures inbox { inbox.new.inlet ≡ inbox.old.inlet }
{
    handings_on_join();
    let mut turn: u64 = 0;
    for _ in rt.forever() {
        if !gate.before(Worker::Net, turn) {
            break;
        }
        let taken = take_in(wire, inbox)?;
        counters.lose(taken.lost);
        send_out(wire, outbox)?;
        counters.note_wire(wire.losses());
        counters.note_relay(wire.relaying());
        rest(wire, taken.is_all);
        gate.after(Worker::Net, turn);
        turn = turn.saturating_add(1);
    }
    Ok(())
}

/// Waits for the next packet, if none was left.
fn rest<W: Wire>(wire: &mut W, is_all: bool)
    ensures sent { W.sent wire.new ≡ W.sent wire.old }
    ensures received { W.received wire.new ≡ W.received wire.old }
{
    if is_all {
        wire.wait(Duration::from_millis(LONGEST_WAIT));
    }
}

/// What one turn took from the wire.
#[derive(Clone, Copy)]
struct Taken {
    /// How many packets had no place in the inbox.
    lost: u64,
    /// Whether no packet was left.
    is_all: bool,
}

/// Moves at most `PLACES` packets from the wire into the inbox.
fn take_in<W: Wire>(wire: &mut W, inbox: &mut Putter) -> Result<Taken, WireFailed>
    ensures received { IsHandedOn (W.received wire.old) (W.received wire.new)
        inbox.old.put inbox.new.put }
    ensures sent { W.sent wire.new ≡ W.sent wire.old }
    ensures inbox { inbox.new.inlet ≡ inbox.old.inlet }
{
    handings_on_join();
    let mut buffer = [0; LONGEST_PACKET];
    let mut lost: u64 = 0;
    for _ in 0..PLACES {
        match wire.receive(&mut buffer)? {
            Some(size) => {
                if !put(inbox, &buffer[..size]) {
                    lost = lost.saturating_add(1);
                }
            }
            None => return Ok(Taken { lost, is_all: true }),
        }
    }
    Ok(Taken {
        lost,
        is_all: false,
    })
}

/// Puts a packet in, and returns whether there was a place for it.
fn put(inbox: &mut Putter, bytes: &[u8]) -> bool
    ensures taken { MayTake inbox.old.put bytes.now inbox.new.put }
    ensures inbox { inbox.new.inlet ≡ inbox.old.inlet }
{
    match Packet::try_from(bytes) {
        Ok(packet) => inbox.put(packet).is_ok(),
        Err(_) => false,
    }
}

/// Sends at most `PLACES` packets of the outbox.
fn send_out<W: Wire>(wire: &mut W, outbox: &mut Taker) -> Result<(), WireFailed>
    ensures sent { IsHandedOn outbox.old.taken outbox.new.taken
        (W.sent wire.old) (W.sent wire.new) }
    ensures received { W.received wire.new ≡ W.received wire.old }
    ensures outbox { outbox.new.inlet ≡ outbox.old.inlet }
{
    handings_on_join();
    for _ in 0..PLACES {
        match outbox.take() {
            Some(packet) => send(wire, packet.as_bytes())?,
            None => break,
        }
    }
    Ok(())
}

/// Sends a datagram to the player or watcher that it names. Bytes that spell no datagram are dropped.
fn send<W: Wire>(wire: &mut W, bytes: &[u8]) -> Result<(), WireFailed>
    ensures sent { MayTake (W.sent wire.old) bytes.now (W.sent wire.new) }
    ensures received { W.received wire.new ≡ W.received wire.old }
{
    match addressee(bytes) {
        Some(to) if bytes.len() <= LONGEST_DATAGRAM => wire.send(to, bytes),
        _ => Ok(()),
    }
}

/// Returns the addressee of a datagram.
fn addressee(bytes: &[u8]) -> Option<Seat> {
    match view(bytes) {
        Ok(datagram) => Some(datagram.header().to()),
        Err(_) => None,
    }
}
