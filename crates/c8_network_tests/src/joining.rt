//! Who gets a seat.

use crate::speaking::{BUSY, JOINED, PROVE, SILENT, ask, join, port_of, relay, say};
use c8_relay::{Address, Cause, Fate};

/// The header of a DATA from seat 1 to seat 2, and zeros.
fn datagram() -> [u8; 60] {
    let mut packet = [0; 60];
    packet[..4].copy_from_slice(&[0x43, 0x38, 1, 3]);
    packet[12] = 1;
    packet[13] = 2;
    packet
}

#[test]
fn two_who_prove_that_they_receive_reach_each_other(rt: HostRuntime) {
    let mut relay = relay(&rt, 4, 8).expect(&rt, "memory");
    let (one, other) = (port_of(1, 4001), port_of(2, 4002));
    assert_eq!(rt;
        say(&mut relay, 5, one, &join(1, 9, &[0; 16])).status,
        PROVE
    );
    assert_eq!(rt; ask(&mut relay, 6, one, 1, 9), JOINED);
    assert_eq!(rt; ask(&mut relay, 7, other, 2, 9), JOINED);
    assert_eq!(rt; (relay.rooms(), relay.seats()), (1, 2));
    let fate = relay.take(8, one, &datagram());
    assert!(rt; matches!(fate, Fate::Forward(Address::Udp { port: 4002, .. })));
    let fate = relay.take(9, other, &datagram());
    assert!(rt; matches!(fate, Fate::Dropped(Cause::Stranger)));
}

#[test]
fn a_cookie_serves_for_two_slots_and_at_its_own_address(rt: HostRuntime) {
    let mut relay = relay(&rt, 4, 8).expect(&rt, "memory");
    let (one, other) = (port_of(1, 4001), port_of(1, 4002));
    let old = say(&mut relay, 5, one, &join(1, 9, &[0; 16])).cookie;
    assert_eq!(rt; say(&mut relay, 6, other, &join(1, 9, &old)).status, PROVE);
    assert_eq!(rt;
        say(&mut relay, 127_999_999, one, &join(1, 9, &old)).status,
        JOINED
    );
    assert_eq!(rt;
        say(&mut relay, 128_000_000, one, &join(2, 9, &old)).status,
        PROVE
    );
}

#[test]
fn a_seat_is_busy_until_it_is_silent(rt: HostRuntime) {
    let mut relay = relay(&rt, 4, 8).expect(&rt, "memory");
    let (one, other) = (port_of(1, 4001), port_of(2, 4002));
    assert_eq!(rt; ask(&mut relay, 5, one, 1, 9), JOINED);
    assert_eq!(rt; ask(&mut relay, 2_000_000, one, 1, 9), JOINED);
    assert_eq!(rt; ask(&mut relay, 4_999_999, other, 1, 9), BUSY);
    assert_eq!(rt; ask(&mut relay, 5_000_000, other, 1, 9), JOINED);
    assert_eq!(rt; ask(&mut relay, 5_000_001, one, 1, 9), BUSY);
    assert_eq!(rt; (relay.rooms(), relay.seats()), (1, 1));
}

#[test]
fn a_sender_has_one_seat_in_a_lane(rt: HostRuntime) {
    let mut relay = relay(&rt, 4, 8).expect(&rt, "memory");
    let one = port_of(1, 4001);
    assert_eq!(rt; ask(&mut relay, 5, one, 1, 9), JOINED);
    assert_eq!(rt; ask(&mut relay, 6, one, 3, 8), JOINED);
    assert_eq!(rt; (relay.rooms(), relay.seats()), (1, 1));
    assert_eq!(rt; ask(&mut relay, SILENT, one, 1, 9), JOINED);
}

#[test]
fn a_connection_needs_no_cookie_and_leaves_when_it_closes(rt: HostRuntime) {
    let mut relay = relay(&rt, 4, 8).expect(&rt, "memory");
    let one = Address::Connection { host: 5, number: 1 };
    let heard = say(&mut relay, 5, one, &join(1, 9, &[1; 16]));
    assert_eq!(rt; heard.status, JOINED);
    assert_eq!(rt; heard.cookie, [0; 16]);
    relay.close(one);
    assert_eq!(rt; (relay.rooms(), relay.seats()), (0, 0));
}
