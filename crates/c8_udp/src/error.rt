//! Why the other players cannot be reached.

ghost use Rattle.std.specs.Prelude.{◌≡◌};
ghost use Rattle.c8_udp.specs.Errors.{socket_error_number, fault_of_wire};

use c8_transport::WireFailed;
use std::io;
use std::io::ErrorKind;
use thiserror::Error;

/// Why the system refuses to open a socket.
#[derive(Clone, Copy, Debug, PartialEq, Eq, Error)]
pub enum SocketFault {
    #[error("another program of this machine uses this port: end it, or take another port")]
    InUse,
    #[error("no interface of this machine has this address: 0.0.0.0 stands for all of them")]
    NotHere,
    #[error("the system does not permit this address; ports below 1024 are for the superuser")]
    NotPermitted,
    #[error("the socket was closed")]
    Closed,
    #[error("this opening has sealed 4294967295 packets, the most that it may; start again")]
    Spent,
    #[error("the system refuses the socket, by its error {0}")]
    Other(i32),
}

impl SocketFault {
    /// Returns the fault for an error of the system.
    pub fn of(error: &io::Error) -> SocketFault {
        match error.kind() {
            ErrorKind::AddrInUse => SocketFault::InUse,
            ErrorKind::AddrNotAvailable => SocketFault::NotHere,
            ErrorKind::PermissionDenied => SocketFault::NotPermitted,
            _ => SocketFault::Other(error.raw_os_error().unwrap_or(0)),
        }
    }
}

impl From<WireFailed> for SocketFault {
    ghost from_gives = { λ failed result. result ≡ fault_of_wire failed };

    fn from(failed: WireFailed) -> SocketFault {
        match failed {
            WireFailed::Closed => SocketFault::Closed,
            WireFailed::Spent => SocketFault::Spent,
        }
    }
}

/// Why the other players cannot be reached.
#[derive(Clone, Copy, Debug, PartialEq, Eq, Error)]
pub enum SocketError {
    /// The socket cannot be opened, or can no longer be used.
    #[error("{0}")]
    Failed(SocketFault),
    #[error("not one address for each other player, or watchers without a secret of their own")]
    Remotes,
    /// An address cannot be read; or another player's or a watcher's cannot be reached from the own one.
    #[error("not an address such as 127.0.0.1:4001, or one of port 0, or of another IP version than LOCAL")]
    Address,
    /// The system starts no thread that could move packets.
    #[error("the system starts no more threads")]
    Thread,
}

impl SocketError {
    /// Returns the number of the refusal.
    pub fn number(self) -> u8
        ensures { result ≡ socket_error_number self }
    {
        match self {
            SocketError::Failed(_) => 1,
            SocketError::Remotes => 2,
            SocketError::Address => 3,
            SocketError::Thread => 4,
        }
    }

    /// Returns the name of the refusal.
    pub fn name(self) -> &'static str {
        match self {
            SocketError::Failed(_) => "Failed",
            SocketError::Remotes => "Remotes",
            SocketError::Address => "Address",
            SocketError::Thread => "Thread",
        }
    }
}
