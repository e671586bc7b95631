//! Whole responses without a body.
ghost use Rattle.std.specs.Prelude.{◌≡◌};
ghost use Rattle.c8_relay_web.specs.Replies.{response_of};

/// Why a request is refused.
#[derive(Clone, Copy, PartialEq, Eq)]
pub(crate) enum Refused {
    /// It is no request.
    Bad,
    /// A page of its origin may not use this relay.
    Origin,
    /// There is no such page.
    Missing,
    /// It is neither GET nor HEAD.
    Method,
    /// It is for `/relay`, and does not ask for WebSocket in the right way.
    NoUpgrade,
    /// Its head is longer than 8192 bytes, or has more than 64 fields.
    TooLarge,
}

impl Refused {
    /// The response that says so.
    pub(crate) fn response(self) -> &'static [u8]
        ensures { result.now ≡ response_of self }
    {
        match self {
            Refused::Bad => {
                b"HTTP/1.1 400 Bad Request\r\ncontent-length: 0\r\nconnection: close\r\n\r\n"
            }
            Refused::Origin => {
                b"HTTP/1.1 403 Forbidden\r\ncontent-length: 0\r\nconnection: close\r\n\r\n"
            }
            Refused::Missing => {
                b"HTTP/1.1 404 Not Found\r\ncontent-length: 0\r\nconnection: close\r\n\r\n"
            }
            Refused::Method => {
                b"HTTP/1.1 405 Method Not Allowed\r\nallow: GET, HEAD\r\ncontent-length: 0\r\nconnection: close\r\n\r\n"
            }
            Refused::NoUpgrade => {
                b"HTTP/1.1 426 Upgrade Required\r\nupgrade: websocket\r\nsec-websocket-version: 13\r\ncontent-length: 0\r\nconnection: Upgrade, close\r\n\r\n"
            }
            Refused::TooLarge => {
                b"HTTP/1.1 431 Request Header Fields Too Large\r\ncontent-length: 0\r\nconnection: close\r\n\r\n"
            }
        }
    }
}

/// How many bytes the value of `Sec-WebSocket-Accept` has.
pub(crate) const ACCEPT_LENGTH: usize = 28;

/// The response that accepts an upgrade, before that value and after it.
pub(crate) const ACCEPTED: &[u8] =
    b"HTTP/1.1 101 Switching Protocols\r\nconnection: Upgrade\r\nupgrade: websocket\r\nsec-websocket-accept: ";

pub(crate) const HEAD_END: &[u8] = b"\r\n\r\n";
