//! What was taken of a packet, for proofs.
ghost use Rattle.std.specs.Prelude.{◌≡◌, ◌≤◌, length};

use crate::key::LONGEST_OPEN;
use arrayvec::ArrayVec;
use c8_wire::Seat;
use std::marker::Model;

/// From whom a sealed packet was taken, its counter, and its datagram.
#[derive(Drop)]
pub struct Given {
    from: Seat,
    counter: u64,
    datagram: ArrayVec<u8, LONGEST_OPEN>,
}

impl Model for Given {
    ghost use Rattle.c8_transport.specs.Given.{GivenValue};

    ghost Value = { GivenValue };

    ghost view = { λ given. record {
      from = given.from.number;
      counter = given.counter;
      datagram = given.datagram.items;
    } };
}

impl Given {
    /// What was taken of a packet.
    pub(crate) fn of(from: Seat, counter: u64, datagram: &[u8]) -> Given
        requires { length datagram.now ≤ LONGEST_OPEN }
        ensures { result ≡ record { from = from.number; counter = counter; datagram = datagram.now } }
    {
        match ArrayVec::try_from(datagram) {
            Ok(datagram) => Given {
                from,
                counter,
                datagram,
            },
            Err(_) => unreachable!(),
        }
    }
}
