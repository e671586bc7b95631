//! Each end in a thread of its own.
use c8_live::{Packet, Putter, Taker, TooLong, inlet};
use c8_transport::LONGEST_PACKET;
use std::sync::Wait;
use std::test::Fail;
use std::thread::{self, join};

/// How many packets are put.
const PACKETS: u32 = 10_000;

/// Makes a packet of 4 to 175 bytes that no other number has.
fn numbered(number: u32) -> Result<Packet, TooLong> {
    let mut bytes = [(number % 251) as u8; LONGEST_PACKET];
    bytes[..4].copy_from_slice(&number.to_be_bytes());
    Packet::try_from(&bytes[..4 + (number % 172) as usize])
}

/// Waits until a packet is put.
fn put(rt: &impl Wait, putter: &mut Putter, packet: Packet) {
    let mut packet = packet;
    for _ in rt.forever() {
        match putter.put(packet) {
            Ok(()) => return,
            Err(back) => packet = back,
        }
        thread::yield_now();
    }
}

/// Waits until a packet is taken.
fn take(rt: &impl Wait, taker: &mut Taker) -> Option<Packet> {
    for _ in rt.forever() {
        if let Some(packet) = taker.take() {
            return Some(packet);
        }
        thread::yield_now();
    }
    None
}

/// Puts all packets. Returns whether the putter finishes while the taker lives.
fn put_all(rt: &impl Wait, mut putter: Putter) -> bool {
    for number in 0..PACKETS {
        if let Ok(packet) = numbered(number) {
            put(rt, &mut putter, packet);
        }
    }
    putter.finish().is_some()
}

/// Takes as many packets. Returns the taker, which must live until the putter finishes, and whether each packet was the
/// next one.
fn take_all(rt: &impl Wait, mut taker: Taker) -> (Taker, bool) {
    let mut are_so = true;
    for number in 0..PACKETS {
        are_so = take(rt, &mut taker) == numbered(number).ok() && are_so;
    }
    (taker, are_so)
}

#[test]
fn ten_thousand_packets_cross(rt: HostRuntime) -> Result<(), Fail> {
    let (putter, taker) = inlet(rt.alloc(), 64)?;
    let (has_finished, (mut taker, are_so)) = join(
        &rt,
        || put_all(&rt, putter),
        || take_all(&rt, taker),
    );
    assert!(rt; has_finished && are_so);
    assert!(rt; taker.take().is_none());
    Ok(())
}
