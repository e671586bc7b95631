//! A socket at a relay: which JOINs it says when, and what it hears.

use crate::udp::notes::Notes;
use c8_relay::{Lane, Place, Spoken, Status, read};
use c8_transport::{LONGEST_PACKET, Relaying, Wire};
use c8_udp::{Addresses, Membership, Remote, Route, Socket, Udp};
use c8_wire::Seat;
use std::io;
use std::net::{Ipv4Addr, SocketAddr};
use std::sync::atomic::{AtomicU64, Ordering};
use std::time::{Clock, Duration};

/// A clock that stands until it is set.
#[derive(Drop)]
struct Hand {
    millis: AtomicU64,
}

impl Clock for Hand {
    fn monotonic(&self) -> io::Result<Duration> {
        Ok(Duration::from_millis(self.millis.load(Ordering::SeqCst)))
    }

    fn since_1970(&self) -> io::Result<Duration> {
        self.monotonic()
    }
}

/// What comes to a socket, and what it has said.
#[derive(Drop)]
struct Desk {
    /// The status of the answer that comes next, as [`code_of`] has it; [`DATAGRAM`] or [`NOTHING`].
    next: AtomicU64,
    /// From which port it comes.
    port: AtomicU64,
    joins: AtomicU64,
    /// Of the last JOIN seat, lane and first byte of its cookie, behind one another; 0 if it was not for the own room.
    last: AtomicU64,
}

/// What comes next if it is no answer.
const NOTHING: u64 = 0;

const DATAGRAM: u64 = 1;

/// A status as a number.
fn code_of(status: Status) -> u64 {
    match status {
        Status::Prove => 2,
        Status::Joined => 3,
        Status::Busy => 4,
        Status::Full => 5,
    }
}

fn status_of(code: u64) -> Status {
    match code {
        2 => Status::Prove,
        3 => Status::Joined,
        4 => Status::Busy,
        _ => Status::Full,
    }
}

/// A socket at which one packet waits at most.
#[derive(Drop)]
struct Seated<'d> {
    desk: &'d Desk,
    notes: Notes,
}

impl<'d> Socket for Seated<'d> {
    ghost took = { λ it. it.notes.took.items };

    ghost gave = { λ it. it.notes.gave.items };

    fn send_to(&mut self, datagram: &[u8], to: SocketAddr) -> io::Result<usize> {
        if let Spoken::Join(join) = read(datagram) {
            self.desk.joins.fetch_add(1, Ordering::SeqCst);
            let lane = if join.place.lane == Lane::Players {
                0
            } else {
                1
            };
            let is_own = to.port() == 4001 && join.place.name == 9;
            let last = if is_own {
                told(join.place.seat, lane, join.cookie[0])
            } else {
                0
            };
            self.desk.last.store(last, Ordering::SeqCst);
        }
        self.notes.take(to, datagram);
        Ok(datagram.len())
    }

    fn recv_from(&mut self, packet: &mut [u8]) -> io::Result<(usize, SocketAddr)> {
        let from = at(u16::try_from(self.desk.port.load(Ordering::SeqCst)).unwrap_or(0));
        let size = match self.desk.next.swap(NOTHING, Ordering::SeqCst) {
            NOTHING => return Err(io::Error::from_raw_os_error(libc::EAGAIN)),
            DATAGRAM => self.notes.give_seven(from, packet),
            code => {
                let answer = status_of(code).answer(&[7; 16]);
                self.notes.give(from, &answer, packet)
            }
        };
        Ok((size, from))
    }
}

fn at(port: u16) -> SocketAddr {
    SocketAddr::from((Ipv4Addr::LOCALHOST, port))
}

/// Seat, lane and a byte of a cookie as one number.
fn told(seat: u8, lane: u8, cookie: u8) -> u64 {
    u64::from(u32::from_be_bytes([0, seat, lane, cookie]))
}

fn place(lane: Lane, seat: u8) -> Place {
    Place {
        name: 9,
        lane,
        seat,
    }
}

/// The wire of the player in this seat, who shows the match to watchers or does not.
fn wire<'d>(
    hand: &'d Hand,
    desk: &'d Desk,
    seat: u8,
    shows: bool,
) -> Udp<Route<'d, Hand, Seated<'d>>> {
    let addresses = Addresses {
        local: at(4005),
        others: [Some(Remote::At(at(4001))), None, None, None],
        watchers: [None, None],
    };
    let second = shows.then_some(place(Lane::Watchers, seat));
    let member = Membership::new(at(4001), place(Lane::Players, seat), second);
    let socket = Seated {
        desk,
        notes: Notes::new(),
    };
    Udp::over(Route::new(hand, socket, Some(member)), &addresses).hearing_all()
}

/// A clock, and a socket to which nothing has come.
fn at_first() -> (Hand, Desk) {
    let hand = Hand {
        millis: AtomicU64::new(0),
    };
    let desk = Desk {
        next: AtomicU64::new(NOTHING),
        port: AtomicU64::new(0),
        joins: AtomicU64::new(0),
        last: AtomicU64::new(0),
    };
    (hand, desk)
}

/// What comes next.
#[derive(Clone, Copy)]
enum Coming {
    Nothing,
    /// A datagram of the relay.
    Datagram,
    /// An answer of the relay.
    Answer(Status),
    /// The same from elsewhere.
    Forged(Status),
}

/// At this time this comes; then the wire gives a datagram or not, it has said so many JOINs, the last one for this seat and
/// lane with this first byte of its cookie, and hears this of the relay.
type Look = (u64, Coming, bool, u64, (u8, u8, u8), Relaying);

/// Player 2 proves that it receives, and has the seat until the relay is silent; somebody else answers, and a datagram comes.
/// Then the relay is another one, where the seat is taken for a while, and at last full.
#[rattlefmt::skip]
static LOOKS: [Look; 18] = [
    (5_000, Coming::Nothing, false, 1, (2, 0, 0), Relaying::Joined),
    (5_001, Coming::Answer(Status::Prove), false, 2, (2, 0, 7), Relaying::Joined),
    (5_002, Coming::Answer(Status::Prove), false, 2, (2, 0, 7), Relaying::Joined),
    (5_003, Coming::Answer(Status::Joined), false, 2, (2, 0, 7), Relaying::Joined),
    (5_999, Coming::Nothing, false, 2, (2, 0, 7), Relaying::Joined),
    (6_000, Coming::Nothing, false, 3, (2, 0, 7), Relaying::Joined),
    (6_001, Coming::Datagram, true, 3, (2, 0, 7), Relaying::Joined),
    (7_002, Coming::Nothing, false, 4, (2, 0, 7), Relaying::Joined),
    (7_003, Coming::Forged(Status::Full), true, 4, (2, 0, 7), Relaying::Silent(2)),
    (8_500, Coming::Nothing, false, 5, (2, 0, 7), Relaying::Silent(3)),
    (8_501, Coming::Answer(Status::Joined), false, 5, (2, 0, 7), Relaying::Joined),
    (9_500, Coming::Answer(Status::Busy), false, 6, (2, 0, 7), Relaying::Joined),
    (10_500, Coming::Answer(Status::Busy), false, 7, (2, 0, 7), Relaying::Joined),
    (11_500, Coming::Answer(Status::Busy), false, 8, (2, 0, 7), Relaying::Joined),
    (12_500, Coming::Answer(Status::Busy), false, 9, (2, 0, 7), Relaying::Taken),
    (13_500, Coming::Answer(Status::Joined), false, 10, (2, 0, 7), Relaying::Joined),
    (14_500, Coming::Answer(Status::Full), false, 11, (2, 0, 7), Relaying::Full),
    (16_600, Coming::Nothing, false, 12, (2, 0, 7), Relaying::Silent(2)),
];

/// Player 1 with watchers asks for both seats in turn, each once a second; answers for the watchers' seat say nothing of its
/// own.
#[rattlefmt::skip]
static BOTH: [Look; 6] = [
    (0, Coming::Nothing, false, 1, (1, 0, 0), Relaying::Joined),
    (499, Coming::Nothing, false, 1, (1, 0, 0), Relaying::Joined),
    (500, Coming::Nothing, false, 2, (1, 1, 0), Relaying::Joined),
    (501, Coming::Answer(Status::Full), false, 2, (1, 1, 0), Relaying::Joined),
    (1_000, Coming::Nothing, false, 3, (1, 0, 0), Relaying::Joined),
    (1_001, Coming::Answer(Status::Full), false, 3, (1, 0, 0), Relaying::Full),
];

fn looks() -> &'static [Look] {
    &LOOKS
}

fn both() -> &'static [Look] {
    &BOTH
}

/// Puts a packet where the socket finds it.
fn put(desk: &Desk, coming: Coming) {
    let (next, port) = match coming {
        Coming::Nothing => (NOTHING, 0),
        Coming::Datagram => (DATAGRAM, 4001),
        Coming::Answer(status) => (code_of(status), 4001),
        Coming::Forged(status) => (code_of(status), 4002),
    };
    desk.next.store(next, Ordering::SeqCst);
    desk.port.store(port, Ordering::SeqCst);
}

/// Whether the wire does this at each look.
fn does(seat: u8, shows: bool, looks: &[Look]) -> bool {
    let (hand, desk) = at_first();
    let mut wire = wire(&hand, &desk, seat, shows);
    for (millis, coming, gives, joins, last, relaying) in looks {
        hand.millis.store(*millis, Ordering::SeqCst);
        put(&desk, *coming);
        let mut packet = [0; LONGEST_PACKET];
        let is_given = matches!(wire.receive(&mut packet), Ok(Some(_)));
        let _ = wire.receive(&mut packet);
        let (seat, lane, cookie) = *last;
        let has_said = desk.joins.load(Ordering::SeqCst) == *joins
            && desk.last.load(Ordering::SeqCst) == told(seat, lane, cookie);
        if is_given != *gives || !has_said || wire.relaying() != *relaying {
            return false;
        }
    }
    true
}

#[test]
fn a_member_asks_each_second_and_hears_what_the_relay_says(rt: HostRuntime) {
    assert!(rt; does(2, false, looks()));
}

#[test]
fn player_1_asks_for_its_seat_among_the_watchers_too(rt: HostRuntime) {
    assert!(rt; does(1, true, both()));
}

/// A datagram is no reason for a JOIN.
#[test]
fn a_datagram_passes_as_it_is(rt: HostRuntime) {
    let (hand, desk) = at_first();
    let mut wire = wire(&hand, &desk, 2, false);
    assert!(rt; wire.send(Seat { number: 1 }, b"datagram").is_ok());
    assert_eq!(rt; desk.joins.load(Ordering::SeqCst), 0);
    assert!(rt; wire.relaying() == Relaying::Joined);
}
