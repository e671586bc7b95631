//! Packets on their way.
use c8_transport::LONGEST_PACKET;

/// A packet on its way.
#[derive(Clone, Copy)]
pub(crate) struct Letter {
    pub(crate) size: usize,
    pub(crate) bytes: [u8; LONGEST_PACKET],
}

impl Letter {
    /// Its bytes.
    pub(crate) fn packet(&self) -> &[u8] {
        &self.bytes[..self.size.min(LONGEST_PACKET)]
    }

    /// The packet with one bit of a byte changed; in byte 2, the version, with two bits changed.
    pub(crate) fn changed(&self, place: usize) -> Letter {
        let mut changed = *self;
        if let Some(byte) = changed.bytes.get_mut(place) {
            *byte ^= if place == 2 { 3 } else { 1 };
        }
        changed
    }
}

pub(crate) fn letter_of(datagram: &[u8]) -> Letter {
    let size = datagram.len().min(LONGEST_PACKET);
    let mut bytes = [0; LONGEST_PACKET];
    bytes[..size].copy_from_slice(&datagram[..size]);
    Letter { size, bytes }
}
