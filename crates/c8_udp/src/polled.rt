//! A wire that can wait for packets.

use crate::route::Route;
use crate::udp::Udp;
use c8_transport::{Losses, Relaying, Wire, WireFailed};
use c8_wire::Seat;
use mio::event::Source;
use mio::{Events, Interest, Poll, Token, Waker};
use std::net::Net;
use std::time::{Clock, Duration};
use std::{io, thread};

/// The sources that a poll reports.
const PACKETS: Token = Token(0);

const RING: Token = Token(1);

/// The most events of one poll: one for each of the two sources.
const MOST_EVENTS: usize = 2;

/// A UDP wire whose `wait` ends when a packet comes, or when the bell rings.
#[derive(Drop)]
pub struct PolledUdp<'r, R> {
    rt: &'r R,
    udp: Udp<Route<'r, R>>,
    poll: Poll,
    events: Events,
}

/// Ends the waiting of a [`PolledUdp`] from another thread.
#[derive(Drop)]
pub struct Bell {
    waker: Waker,
}

impl Bell {
    /// Ends the present wait, or the next one if nobody waits.
    pub fn ring(&self) {
        // If this fails, the wait ends at its timeout.
        let _ = self.waker.wake();
    }
}

impl<'r, R: Net + Clock + AllocGlobal> PolledUdp<'r, R> {
    /// Makes a wire that can wait, and its bell. Fails if the system cannot poll, or if memory runs out
    /// (`OutOfMemory`).
    pub fn over(rt: &'r R, udp: Udp<Route<'r, R>>) -> io::Result<(PolledUdp<'r, R>, Bell)> {
        let mut udp = udp;
        let poll = Poll::new(rt)?;
        let events = Events::with_capacity(rt.alloc(), MOST_EVENTS)?;
        udp.register(poll.registry(), PACKETS, Interest::READABLE)?;
        let waker = Waker::new(poll.registry(), RING)?;
        let wire = PolledUdp {
            rt,
            udp,
            poll,
            events,
        };
        Ok((wire, Bell { waker }))
    }
}

impl<'r, R: Clock> Wire for PolledUdp<'r, R> {
    ghost sent = { λ it. it.udp.traffic.sent.items };

    ghost received = { λ it. it.udp.traffic.received.items };

    fn send(&mut self, to: Seat, datagram: &[u8]) -> Result<(), WireFailed> {
        self.udp.send(to, datagram)
    }

    fn receive(&mut self, packet: &mut [u8]) -> Result<Option<usize>, WireFailed> {
        self.udp.receive(packet)
    }

    fn wait(&mut self, most: Duration) {
        // Where the system cannot poll any more, the wire sleeps, so that its thread does not spin.
        if self.poll.poll(&mut self.events, Some(most)).is_err() {
            thread::sleep(self.rt, most);
        }
    }

    fn tell_sender(&mut self, sender: Seat, counter: u64) {
        self.udp.tell_sender(sender, counter);
    }

    fn losses(&self) -> Losses {
        self.udp.losses()
    }

    fn relaying(&self) -> Relaying {
        self.udp.relaying()
    }
}
