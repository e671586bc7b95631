//! The bytes that wait to be sent by a connection.
ghost use Rattle.std.specs.Prelude.{◌≡◌, ◌≤◌, ◌<◌, ◌+◌, ◌-◌, ◌↔◌, ◌++◌, [], ℕ, IsTrue, MatchBool, drop, false, length, slice_range};
ghost use Rattle.c8_relay_web.specs.declared.outbox.TheConstants.{OUTPUT};

use mio::net::TcpStream;
use std::io::{ErrorKind, Write};

/// How many bytes wait at most: twenty of the longest packets.
pub(crate) const OUTPUT: usize = 4096;

/// The most writes of one flush.
const MOST_WRITES: usize = 64;

/// The bytes that wait to be sent.
#[derive(Drop)]
pub(crate) struct Outbox {
    bytes: [u8; OUTPUT],
    first: usize,
    last: usize,
    ghost last_fits: { last ≤ OUTPUT },
    ghost ordered: { first ≤ last },
}

impl Outbox {
    pub(crate) fn new() -> Outbox
        ensures { slice_range result.bytes result.first result.last ≡ [] }
    {
        Outbox {
            bytes: [0; OUTPUT],
            first: 0,
            last: 0,
        }
    }

    pub(crate) fn is_empty(&self) -> bool
        ensures { IsTrue result ↔ (slice_range self.now.bytes self.now.first self.now.last ≡ []) }
    {
        self.first >= self.last
    }

    /// Moves what waits to the front, and returns how much it is.
    fn make_room(&mut self) -> usize
        ensures within { result ≤ OUTPUT }
        ensures size { result ≡ self.old.last - self.old.first }
        ensures first { self.new.first ≡ 0 }
        ensures last { self.new.last ≡ result }
        ensures same { slice_range self.new.bytes self.new.first self.new.last ≡ slice_range self.old.bytes self.old.first self.old.last }
    {
        let (first, last) = (self.first, self.last);
        if first > 0 {
            self.bytes.copy_within(first..last, 0);
            self.first = 0;
            self.last = last - first;
        }
        self.last
    }

    /// Adds bytes, if there is room for all of them. Returns whether there was.
    pub(crate) fn say(&mut self, bytes: &[u8]) -> bool
        ensures said { MatchBool result
            (slice_range self.new.bytes self.new.first self.new.last ≡ slice_range self.old.bytes self.old.first self.old.last ++ bytes.now)
            (slice_range self.new.bytes self.new.first self.new.last ≡ slice_range self.old.bytes self.old.first self.old.last) }
        ensures room { result ≡ false → OUTPUT < length (slice_range self.old.bytes self.old.first self.old.last) + length bytes.now }
    {
        let last = self.make_room();
        if bytes.len() > OUTPUT - last {
            return false;
        }
        self.bytes[last..last + bytes.len()].copy_from_slice(bytes);
        self.last = last + bytes.len();
        true
    }

    /// Drops the first bytes that wait.
    fn drop_front(&mut self, size: usize)
        ensures { slice_range self.new.bytes self.new.first self.new.last ≡ drop size (slice_range self.old.bytes self.old.first self.old.last) }
    {
        let (first, last) = (self.first, self.last);
        self.first = first + size.min(last - first);
    }

    /// Sends what the system takes. Returns whether the stream is well.
    pub(crate) fn flush(&mut self, stream: &TcpStream) -> bool
        ensures idle { slice_range self.old.bytes self.old.first self.old.last ≡ [] → IsTrue result }
        ensures front { (sent : ℕ) × (slice_range self.new.bytes self.new.first self.new.last ≡ drop sent (slice_range self.old.bytes self.old.first self.old.last)) }
    {
        for _ in 0..MOST_WRITES {
            let (first, last) = (self.first, self.last);
            if first >= last {
                return true;
            }
            let mut stream = stream;
            let bytes = &self.bytes[..];
            match stream.write(&bytes[first..last]) {
                Ok(0) => return false,
                Ok(size) => self.drop_front(size),
                Err(error) => return error.kind() == ErrorKind::WouldBlock,
            }
        }
        true
    }
}
