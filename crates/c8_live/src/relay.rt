//! The game thread's way to the net thread.
ghost use Rattle.std.specs.Prelude.{◌≡◌};

use crate::ends::{Putter, Taker};
use crate::packet::Packet;
use c8_transport::{Losses, Wire, WireFailed};
use c8_wire::Seat;

/// A wire of two inlets: it sends into one and receives from the other. If the outbox is full, the datagram is lost and
/// counted. It never fails.
#[derive(Drop)]
pub struct Relay {
    outbox: Putter,
    inbox: Taker,
    lost: u64,
}

impl Relay {
    /// Creates a relay that puts into `outbox` and takes from `inbox`.
    pub fn new(outbox: Putter, inbox: Taker) -> Relay
        ensures outbox { result.outbox ≡ outbox }
        ensures inbox { result.inbox ≡ inbox }
    {
        Relay {
            outbox,
            inbox,
            lost: 0,
        }
    }

    /// Gives both inlet ends back.
    pub fn into_ends(self) -> (Putter, Taker)
        ensures { (result.0 ≡ self.outbox) × (result.1 ≡ self.inbox) }
    {
        (self.outbox, self.inbox)
    }
}

impl Wire for Relay {
    ghost sent = { λ relay. relay.outbox.put };

    ghost received = { λ relay. relay.inbox.taken };

    fn send(&mut self, _to: Seat, datagram: &[u8]) -> Result<(), WireFailed> {
        if let Ok(packet) = Packet::try_from(datagram)
            && self.outbox.put(packet).is_err()
        {
            self.lost = self.lost.saturating_add(1);
        }
        Ok(())
    }

    fn receive(&mut self, packet: &mut [u8]) -> Result<Option<usize>, WireFailed> {
        let Some(taken) = self.inbox.take() else {
            return Ok(None);
        };
        let bytes = taken.as_bytes();
        packet[..bytes.len()].copy_from_slice(bytes);
        Ok(Some(bytes.len()))
    }

    fn losses(&self) -> Losses {
        Losses {
            lost: self.lost,
            ..Losses::default()
        }
    }
}
