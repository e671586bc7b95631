//! Both ends in one thread.
use crate::told::{prints, shows};
use c8_live::{Packet, Putter, TooLong, after, beside, inlet};
use c8_transport::LONGEST_PACKET;
use std::alloc::AllocError;
use std::test::Fail;

/// Makes a packet of `length` bytes, which count up from the first one. Two such packets differ in each byte, or in
/// length.
fn packet(first: u8, length: usize) -> Result<Packet, TooLong> {
    let mut bytes = [0; LONGEST_PACKET + 1];
    let mut next = first;
    for byte in &mut bytes {
        *byte = next;
        next = next.wrapping_add(1);
    }
    Packet::try_from(&bytes[..length.min(bytes.len())])
}

#[test]
fn texts(rt: HostRuntime) -> Result<(), Fail> {
    let shown = "Packet { bytes: [254, 255, 0] }";
    assert!(rt; prints(rt.alloc(), TooLong, "a packet has at most 175 bytes"));
    assert!(rt; shows(rt.alloc(), &packet(254, 3)?, shown));
    Ok(())
}

/// Puts a packet. Returns it if it comes back.
fn put(putter: &mut Putter, first: u8, length: usize) -> Option<Packet> {
    match packet(first, length) {
        Ok(packet) => putter.put(packet).err(),
        Err(_) => None,
    }
}

#[test]
fn a_putter_finishes(rt: HostRuntime) -> Result<(), Fail> {
    let (mut putter, mut taker) = inlet(rt.alloc(), 1)?;
    assert!(rt; putter.put(packet(1, 30)?) == Ok(()));
    assert!(rt; putter.put(packet(2, 31)?).err() == packet(2, 31).ok());
    assert!(rt; beside(&mut putter, &mut taker) == 1);
    let mut ended = putter.finish().ok_or("the taker is there")?;
    assert!(rt; after(&mut ended, &mut taker) == 1);
    assert!(rt; taker.take() == packet(1, 30).ok());
    assert!(rt; after(&mut ended, &mut taker) == 0);
    Ok(())
}

#[test]
fn an_end_goes_on_alone(rt: HostRuntime) -> Result<(), Fail> {
    let (mut putter, mut taker) = inlet(rt.alloc(), 2)?;
    assert!(rt; put(&mut putter, 7, 70).is_none());
    drop(putter);
    assert!(rt; taker.take() == packet(7, 70).ok() && taker.take().is_none());
    Ok(())
}

#[test]
fn no_putter_finishes_alone(rt: HostRuntime) -> Result<(), Fail> {
    let (putter, taker) = inlet(rt.alloc(), 2)?;
    drop(taker);
    assert!(rt; putter.finish().is_none());
    Ok(())
}

#[test]
fn an_inlet_wants_memory(rt: HostRuntime) {
    assert!(rt; inlet(rt.alloc(), usize::MAX).err() == Some(AllocError));
}
