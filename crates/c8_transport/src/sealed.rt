//! A wire that seals.

ghost use Rattle.std.specs.Prelude.{◌≡◌, ◌≤◌, length, IfOk, IfSome, OnOk};
ghost use Rattle.c8_transport.specs.Wire.{MayTake, Gives};
ghost use Rattle.c8_transport.specs.Wires.{HasOpened, HasPassed};

use crate::error::{NotTaken, Unsealable, WireFailed};
use crate::key::LONGEST_SEALED;
use crate::sealer::Sealer;
use crate::wire::{LONGEST_PACKET, LONGEST_READ, LONGEST_SENT, Losses, Relaying, Wire};
use c8_wire::Seat;
use std::time::Duration;

/// How many packets of the wire below one turn looks at, at most, so that a flood of others cannot stop it.
const MOST_LOOKED: u16 = 4096;

/// A wire over a wire. It seals each datagram with the key of its kind and a counter of its own, and gives the datagrams
/// of the packets that its sealer takes: all others are counted, and nobody else sees them. A datagram without a key
/// here, or of more than 174 bytes, is lost. It tells the wire below who sealed each packet, and its counter.
#[derive(Drop)]
pub struct Sealed<W> {
    below: W,
    sealer: Sealer,
    /// How many packets were looked at since something was last sent.
    looked: u16,
    unsealed: u64,
    repeated: u64,
}

impl<W> Sealed<W> {
    /// Seals what goes over a wire. The wire below has to give packets from whatever address.
    pub fn over(below: W, sealer: Sealer) -> Sealed<W>
        ensures below { result.below ≡ below }
        ensures sealer { result.sealer ≡ sealer }
    {
        Sealed {
            below,
            sealer,
            looked: 0,
            unsealed: 0,
            repeated: 0,
        }
    }

    /// Gives the wire below back.
    pub fn into_below(self) -> W
        ensures { result ≡ self.below }
    {
        self.below
    }

    /// Counts a packet that is not taken.
    fn turn_away(&mut self, why: NotTaken)
        ensures below { self.new.below ≡ self.old.below }
        ensures sealer { self.new.sealer ≡ self.old.sealer }
    {
        match why {
            NotTaken::NotSealed => self.unsealed = self.unsealed.saturating_add(1),
            NotTaken::SeenBefore => self.repeated = self.repeated.saturating_add(1),
        }
    }
}

impl<W: Wire> Wire for Sealed<W> {
    ghost use Rattle.c8_transport.specs.Opened.{opened};
    ghost use Rattle.c8_transport.specs.Given.{datagrams_of};

    ghost sent = { λ it. opened it.sealer.seal.keys (W.sent it.below) };

    ghost received = { λ it. datagrams_of it.sealer.taken };

    fn send(&mut self, to: Seat, datagram: &[u8]) -> Result<(), WireFailed>
        requires { length datagram.now ≤ LONGEST_SENT }
        ensures sent { MayTake (opened self.old.sealer.seal.keys (W.sent self.old.below)) datagram.now
            (opened self.new.sealer.seal.keys (W.sent self.new.below)) }
        ensures received { datagrams_of self.new.sealer.taken ≡ datagrams_of self.old.sealer.taken }
        ensures passed { HasPassed W.Wire self.old.sealer self.new.sealer datagram.now self.old.below self.new.below }
    {
        self.looked = 0;
        let mut packet = [0; LONGEST_SEALED];
        match self.sealer.seal(datagram, &mut packet) {
            Ok(size) => self.below.send(to, &packet[..size]),
            Err(Unsealable::Spent) => Err(WireFailed::Spent),
            Err(Unsealable::Long | Unsealable::NoKey) => Ok(()),
        }
    }

    fn receive(&mut self, packet: &mut [u8]) -> Result<Option<usize>, WireFailed>
        requires { LONGEST_PACKET ≤ length packet.old }
        ensures within { IfOk result (λ next. IfSome next (λ size. size ≤ length packet.old)) }
        ensures received { Gives (datagrams_of self.old.sealer.taken) packet.new result
            (datagrams_of self.new.sealer.taken) }
        ensures sent { opened self.new.sealer.seal.keys (W.sent self.new.below)
            ≡ opened self.old.sealer.seal.keys (W.sent self.old.below) }
        ensures opened { HasOpened W.Wire self.old.sealer self.new.sealer self.old.below self.new.below }
    {
        let mut sealed = [0; LONGEST_READ];
        for _ in self.looked..MOST_LOOKED {
            let Some(size) = self.below.receive(&mut sealed)? else {
                break;
            };
            self.looked = self.looked.saturating_add(1);
            match self.sealer.open(&sealed[..size]) {
                Ok(taken) => {
                    self.below.tell_sender(taken.from, taken.counter);
                    let size = taken.datagram.len();
                    packet[..size].copy_from_slice(taken.datagram);
                    return Ok(Some(size));
                }
                Err(why) => self.turn_away(why),
            }
        }
        Ok(None)
    }

    fn wait(&mut self, most: Duration) {
        self.looked = 0;
        self.below.wait(most);
    }

    fn losses(&self) -> Losses {
        let below = self.below.losses();
        Losses {
            unsealed: below.unsealed.saturating_add(self.unsealed),
            repeated: below.repeated.saturating_add(self.repeated),
            ..below
        }
    }

    fn relaying(&self) -> Relaying {
        self.below.relaying()
    }
}
