//! When a relay is full.

use crate::speaking::{BUSY, FULL, JOINED, PROVE, SILENT, ask, join, port_of, relay, say};
use c8_relay::Address;

#[test]
fn a_host_has_its_share_of_the_seats(rt: HostRuntime) {
    let mut relay = relay(&rt, 16, 3).expect(&rt, "memory");
    for port in 1..=3 {
        assert_eq!(rt; ask(&mut relay, 5, port_of(1, port), 1, port as u8), JOINED);
    }
    assert_eq!(rt; ask(&mut relay, 6, port_of(1, 4), 1, 4), FULL);
    assert_eq!(rt; ask(&mut relay, 7, port_of(1, 3), 1, 5), JOINED);
    assert_eq!(rt; ask(&mut relay, 8, port_of(2, 4), 1, 4), JOINED);
    // One of the silent seats of the host is freed for the new one.
    assert_eq!(rt; ask(&mut relay, SILENT + 8, port_of(1, 4), 1, 6), JOINED);
    assert_eq!(rt; relay.seats(), 4);
}

#[test]
fn a_network_of_64_bits_is_one_host(rt: HostRuntime) {
    let mut relay = relay(&rt, 16, 1).expect(&rt, "memory");
    let network: u128 = 0x2001_0db8_0000_0001 << 64;
    let first = Address::Udp {
        host: network + 1,
        port: 1,
    };
    let second = Address::Udp {
        host: network + 2,
        port: 1,
    };
    let apart = Address::Udp {
        host: network + (1 << 64),
        port: 1,
    };
    assert_eq!(rt; ask(&mut relay, 5, first, 1, 1), JOINED);
    assert_eq!(rt; ask(&mut relay, 6, second, 1, 2), FULL);
    assert_eq!(rt; ask(&mut relay, 7, apart, 1, 3), JOINED);
}

#[test]
fn there_are_as_many_rooms_as_the_limit_says(rt: HostRuntime) {
    let mut relay = relay(&rt, 2, 8).expect(&rt, "memory");
    assert_eq!(rt; ask(&mut relay, 5, port_of(1, 1), 1, 1), JOINED);
    assert_eq!(rt; ask(&mut relay, 6, port_of(1, 2), 1, 2), JOINED);
    assert_eq!(rt; ask(&mut relay, 7, port_of(1, 3), 1, 3), FULL);
    assert_eq!(rt; ask(&mut relay, 8, port_of(1, 3), 2, 2), JOINED);
    assert_eq!(rt; ask(&mut relay, 9, port_of(1, 4), 2, 2), BUSY);
    assert_eq!(rt; ask(&mut relay, SILENT + 5, port_of(1, 4), 1, 3), JOINED);
}

#[test]
fn strangers_take_a_quarter_of_a_batch(rt: HostRuntime) {
    let mut relay = relay(&rt, 4, 99).expect(&rt, "memory");
    let member = port_of(1, 1);
    assert_eq!(rt; ask(&mut relay, 5, member, 1, 1), JOINED);
    relay.begin_batch(6);
    let packet = join(2, 1, &[0; 16]);
    for port in 100..116 {
        assert_eq!(rt; say(&mut relay, 6, port_of(3, port), &packet).status, PROVE);
    }
    assert_eq!(rt; say(&mut relay, 7, port_of(3, 116), &packet).status, 0);
    assert_eq!(rt; say(&mut relay, 8, member, &packet).status, PROVE);
    relay.begin_batch(9);
    assert_eq!(rt; say(&mut relay, 9, port_of(3, 117), &packet).status, PROVE);
}
