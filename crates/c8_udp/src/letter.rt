//! What a socket gave or took, for proofs.
ghost use Rattle.std.specs.Prelude.{◌≡◌, ◌≤◌, length};
ghost use Rattle.c8_udp.specs.Letters.{letter};

use arrayvec::ArrayVec;
use c8_transport::LONGEST_READ;
use std::marker::Model;
use std::net::SocketAddr;

/// Bytes, with the address that they come from or go to.
#[derive(Drop)]
pub struct Letter {
    address: SocketAddr,
    bytes: ArrayVec<u8, LONGEST_READ>,
}

impl Model for Letter {
    ghost use Rattle.c8_udp.specs.Letters.{LetterValue};

    ghost Value = { LetterValue };

    ghost view = { λ it. record { address = it.address; bytes = it.bytes.items } };
}

impl Letter {
    /// These bytes and this address.
    pub fn of(address: SocketAddr, bytes: &[u8]) -> Letter
        requires { length bytes.now ≤ LONGEST_READ }
        ensures { result ≡ letter address bytes.now }
    {
        match ArrayVec::try_from(bytes) {
            Ok(bytes) => Letter { address, bytes },
            Err(_) => unreachable!(),
        }
    }
}
