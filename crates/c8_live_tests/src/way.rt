//! The wire of a session.
ghost use Rattle.std.specs.Prelude.{[]};

use crate::letter::{Letter, letter_of};
use c8_transport::{LONGEST_PACKET, Traffic, Wire, WireFailed};
use c8_wire::Seat;
use std::alloc::Global;

/// A wire on which packets wait, and which keeps what is sent, with its addressee. It may fail in one direction.
#[derive(Drop)]
pub(crate) struct Way {
    waiting: Vec<Letter>,
    /// How many of them the session has taken.
    taken: usize,
    pub(crate) sent: Vec<(Seat, Letter)>,
    pub(crate) fails_to_send: bool,
    pub(crate) fails_to_receive: bool,
    traffic: Traffic,
}

impl Way {
    pub(crate) fn new(alloc: Global) -> Way {
        Way {
            waiting: Vec::new(alloc),
            taken: 0,
            sent: Vec::new(alloc),
            fails_to_send: false,
            fails_to_receive: false,
            traffic: Traffic::new(),
        }
    }

    /// Lets a packet wait for the session, and returns whether there was memory for it.
    pub(crate) fn post(&mut self, letter: &Letter) -> bool {
        self.waiting.push(*letter).is_ok()
    }
}

impl Wire for Way {
    ghost sent = { λ _. [] };

    ghost received = { λ way. way.traffic.received.items };

    fn send(&mut self, to: Seat, datagram: &[u8]) -> Result<(), WireFailed> {
        if self.fails_to_send {
            return Err(WireFailed::Closed);
        }
        match self.sent.push((to, letter_of(datagram))) {
            Ok(()) => Ok(()),
            Err(_) => Err(WireFailed::Closed),
        }
    }

    fn receive(&mut self, packet: &mut [u8]) -> Result<Option<usize>, WireFailed> {
        if self.fails_to_receive {
            return Err(WireFailed::Closed);
        }
        let Some(letter) = self.waiting.get(self.taken) else {
            return Ok(None);
        };
        let size = letter.size.min(LONGEST_PACKET);
        packet[..size].copy_from_slice(&letter.bytes[..size]);
        self.taken = self.taken.saturating_add(1);
        self.traffic.gave(&packet[..size]);
        Ok(Some(size))
    }
}
