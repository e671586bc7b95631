//! What an inlet carries.
ghost use Rattle.std.specs.Prelude.{◌≡◌, ◌≤◌, ◌<◌, length, MatchResult};
ghost use Rattle.c8_transport.specs.declared.wire.TheConstants.{LONGEST_PACKET};

use crate::error::TooLong;
use arrayvec::ArrayVec;
use c8_transport::LONGEST_PACKET;
use std::alloc::AllocError;
use std::marker::Model;

/// At most [`LONGEST_PACKET`] bytes, stored in the value itself.
#[derive(Debug, Drop, PartialEq, Eq)]
pub struct Packet {
    bytes: ArrayVec<u8, LONGEST_PACKET>,
}

impl Model for Packet {
    ghost use Rattle.std.specs.Prelude.{List, ℕ};

    ghost Value = { List ℕ };

    ghost view = { λ p. p.bytes.items };

    ghost inverse = { λ bytes. record { bytes = record { items = bytes } } };
}

impl Packet {
    /// Returns the bytes.
    pub fn as_bytes(&self) -> &[u8]
        ensures value { result.now ≡ self.now }
        ensures most { length result.now ≤ LONGEST_PACKET }
    {
        self.bytes.as_slice()
    }
}

/// Makes a packet of these bytes. Fails if they are more than [`LONGEST_PACKET`].
impl TryFrom<&[u8]> for Packet {
    type Error = TooLong;

    ghost try_from_gives = { λ bytes r. MatchResult r
        (λ packet. (packet ≡ bytes.now) × (length bytes.now ≤ LONGEST_PACKET))
        (λ _. LONGEST_PACKET < length bytes.now) };

    fn try_from(bytes: &[u8]) -> Result<Packet, TooLong> {
        match ArrayVec::try_from(bytes) {
            Ok(bytes) => Ok(Packet { bytes }),
            Err(_) => Err(TooLong),
        }
    }
}

/// Copies the packet. It takes no memory and always succeeds.
impl Clone for Packet {
    ghost is_clone = { λ packet copy. copy ≡ packet };

    ghost is_infallible = { λ _. Unit {0} };

    fn clone(&self) -> Result<Packet, AllocError> {
        let bytes = self.bytes.clone()?;
        Ok(Packet { bytes })
    }
}
