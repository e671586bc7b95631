//! The bytes of all datagrams that were sent.
ghost use Rattle.std.specs.Prelude.{◌≡◌, ◌≤◌, ◌<◌, ◌+◌, List, [], ◌∷◌, ◌++◌, ℕ, length, take, map, IfOk, OnOk, OnErr, MatchOption};
ghost use Rattle.std.specs.List.{slice_get};
ghost use Rattle.c8_wire.specs.declared.sizes.TheConstants.{LONGEST_DATAGRAM};

use c8_wire::LONGEST_DATAGRAM;
use std::alloc::{AllocError, Global};
use std::marker::Model;

/// The bytes of a datagram.
#[derive(Clone, Copy)]
struct Spoken {
    bytes: [u8; LONGEST_DATAGRAM],
    size: usize,
    ghost fits: { size ≤ LONGEST_DATAGRAM },
}

/// The datagrams that were sent, numbered from 0. None is ever removed.
#[derive(Drop)]
pub(crate) struct Pool {
    spoken: Vec<Spoken>,
}

impl Model for Pool {
    ghost use Rattle.std.specs.Prelude.{List, ℕ, take, map};

    ghost Value = { List (List ℕ) };

    ghost view = { λ p. map (λ s. take s.size s.bytes) p.spoken.items };
}

impl Pool {
    pub(crate) fn new(alloc: Global) -> Pool
        ensures { result ≡ [] }
    {
        Pool {
            spoken: Vec::new(alloc),
        }
    }

    /// Returns how many there are.
    pub(crate) fn len(&self) -> usize
        ensures { result ≡ length self.now }
    {
        self.spoken.len()
    }

    /// Adds a datagram: the first `size` bytes of `bytes`.
    pub(crate) fn push(
        &mut self,
        bytes: &[u8; LONGEST_DATAGRAM],
        size: usize,
    ) -> Result<(), AllocError>
        requires { size ≤ LONGEST_DATAGRAM }
        ensures ok { OnOk result (self.new ≡ self.old ++ take size bytes.now ∷ []) }
        ensures err { OnErr result (self.new ≡ self.old) }
    {
        match self.spoken.push(Spoken {
            bytes: *bytes,
            size,
        }) {
            Ok(()) => Ok(()),
            Err(_) => Err(AllocError),
        }
    }

    /// Returns the bytes of the datagram with a number.
    pub(crate) fn get(&self, number: u64) -> Option<&[u8]>
        ensures { MatchOption result (length self.now ≤ number)
            (λ bytes. slice_get self.now number ≡ Some bytes.now) }
    {
        if number >= self.spoken.len() as u64 {
            return None;
        }
        let spoken = &self.spoken[number as usize];
        Some(&spoken.bytes[..spoken.size])
    }
}
