//! An opening for which memory runs out.
use c8_disk::{Arm, Disk, MemDisk};
use c8_game::{Game, Player};
use c8_log::{CLOSED_GATE, SLOT_LENGTH};
use c8_peer::{OpenError, Peer};
use std::alloc::Global;
use std::test::Fail;

/// Two players, a window of 8 frames and no delay.
const GAME: &[u8] =
    b"players 2\nipf 10\nframes 1\ndelay 0\nwindow 8\nseed 0\nmask1 000f\nmask2 fff0\ncode 1200\n";

const ROOM: u64 = 0x0102030405060708;

/// The open slot of the HEAD of player 1, with the game's id and the room.
const HEAD: &[u8] = b"\xa5\x01\x01\0\0\0\x01\0\0\0\x02\0\x14\
    \x56\x09\x92\x6b\x8b\x05\x1e\x21\xe0\x4d\x55\x20\x27\xa1\x6f\x8a\
    \x05\xe3\x70\x25\xd0\x9b\x31\x38\xb9\x38\x90\x7b\x77\xd3\x18\xad\
    \x01\x02\x03\x04\x05\x06\x07\x08";

/// The bytes of a journal with that HEAD.
fn image() -> [u8; SLOT_LENGTH] {
    let mut slot = [0; SLOT_LENGTH];
    for (byte, new) in slot.iter_mut().zip(HEAD.iter()) {
        *byte = *new;
    }
    slot
}

/// Writes bytes after the end. Returns whether that succeeded.
fn writes(disk: &mut MemDisk, bytes: &[u8]) -> bool {
    let end = disk.len();
    bytes.len() <= SLOT_LENGTH && disk.write_at(end, bytes).is_ok()
}

/// A disk with that journal. It serves the six calls that an opening of one record makes.
fn ready(alloc: Global) -> Option<MemDisk> {
    let mut disk = MemDisk::new(alloc, 1000, 100).ok()?;
    if !writes(&mut disk, &image()) || !writes(&mut disk, &[CLOSED_GATE]) {
        return None;
    }
    disk.arm(Arm::Stop(6));
    Some(disk)
}

/// The epoch of player 1's peer on a disk; or the error, and whether the disk still has its bytes and serves an opening.
fn opened(alloc: Global, game: &Game, disk: MemDisk) -> Result<u32, (OpenError, bool)> {
    match Peer::open(alloc, disk, game, Player::CHAIR, ROOM) {
        Ok(peer) => Ok(peer.epoch()),
        Err((error, disk)) => Err((error, is_untouched(alloc, game, disk))),
    }
}

fn is_untouched(alloc: Global, game: &Game, disk: MemDisk) -> bool {
    let is_same = disk.bytes().split_last() == Some((&CLOSED_GATE, image().as_slice()));
    match Peer::open(alloc, disk, game, Player::CHAIR, ROOM) {
        Ok(peer) => is_same && peer.epoch() == 2,
        Err(_) => false,
    }
}

/// If memory runs out for the opening, this fails with a name, and the disk has not changed.
#[test]
fn memory_is_refused_before_the_disk_is_touched(rt: HostRuntime) -> Result<(), Fail> {
    let game = Game::read(rt.alloc(), GAME)?;
    let Some(disk) = ready(rt.alloc()) else {
        return Err(Fail::new("out of memory"));
    };
    match opened(rt.alloc(), &game, disk) {
        Ok(epoch) => assert!(rt; epoch == 2),
        Err((OpenError::Memory, true)) => {
            return Err(Fail::new("out of memory, and the disk is as it was"));
        }
        Err(_) => return Err(Fail::new("another error, or another disk")),
    }
    Ok(())
}

/// No case can make memory run out.
#[test]
fn an_opening_without_memory_has_its_text(rt: HostRuntime) -> Result<(), Fail> {
    let error = OpenError::Memory;
    let text = format!(in rt.alloc(); "{} {} {error}", error.number(), error.name())?;
    assert!(rt; text.as_str() == "5 Memory out of memory");
    Ok(())
}
