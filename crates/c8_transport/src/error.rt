//! Why a transport failed, and why a secret, a datagram or a packet is refused.

ghost use Rattle.std.specs.Prelude.{◌≡◌};
ghost use Rattle.c8_transport.specs.Errors.{secret_error_number};

use thiserror::Error;

/// Why the transport failed for good.
#[derive(Clone, Copy, Debug, PartialEq, Eq, Error)]
pub enum WireFailed {
    /// The socket was closed.
    #[error("the other players cannot be reached any more")]
    Closed,
    /// All counters of this opening were used for sealed packets.
    #[error("this opening has sealed 4294967295 packets, the most that it may; start again")]
    Spent,
}

/// Why a secret is refused. No message shows a digit of it.
#[derive(Clone, Copy, Debug, PartialEq, Eq, Error)]
pub enum SecretError {
    /// The text is not 64 hexadecimal digits, with at most one LF after them.
    #[error("not 64 hexadecimal digits and at most one line feed after them")]
    Bad,
    /// The watchers' secret is that of the players.
    #[error("the same secret as that of the players; watchers need one of their own")]
    Same,
}

impl SecretError {
    /// The number of the refusal.
    pub fn number(self) -> u8
        ensures { result ≡ secret_error_number self }
    {
        match self {
            SecretError::Bad => 1,
            SecretError::Same => 2,
        }
    }

    /// The name of the refusal.
    pub fn name(self) -> &'static str {
        match self {
            SecretError::Bad => "Bad",
            SecretError::Same => "Same",
        }
    }
}

/// Why a datagram is not sealed.
#[derive(Clone, Copy, Debug, PartialEq, Eq, Error)]
pub enum Unsealable {
    /// It has more than 174 bytes.
    #[error("a datagram of more than 174 bytes")]
    Long,
    /// The secret for its kind is not here.
    #[error("no secret for datagrams of this kind")]
    NoKey,
    /// All counters of this opening are used up.
    #[error("this opening has sealed 4294967295 packets, the most that it may; start again")]
    Spent,
}

/// Why a packet is not taken.
#[derive(Clone, Copy, Debug, PartialEq, Eq, Error)]
pub enum NotTaken {
    /// It is not sealed for this player with the key of the match.
    #[error("a packet that is not sealed for this player with the secret of the match")]
    NotSealed,
    /// Its counter was taken before, or is too far below the greatest.
    #[error("a packet that came before, or is too old to tell")]
    SeenBefore,
}
