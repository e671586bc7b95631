//! Standard error that holds nothing up.

use libc::net::{POLLOUT, poll};
use libc::types::pollfd;
use std::io;
use std::io::Write;

/// How many bytes are written at once. A pipe that is ready takes as many.
const PIECE: usize = 4096;

/// Standard error, whose reader may be slow or asleep: what it does not take at once is lost.
#[derive(Drop)]
pub struct Unhurried<W> {
    pub out: W,
}

impl<W: Write> Write for Unhurried<W> {
    fn write(&mut self, buf: &[u8]) -> io::Result<usize> {
        let size = buf.len().min(PIECE);
        if is_ready() {
            self.out.write(&buf[..size])
        } else {
            Ok(size)
        }
    }

    fn flush(&mut self) -> io::Result<()> {
        self.out.flush()
    }
}

/// Whether standard error takes bytes at once, or is gone. If the system cannot tell, it counts as ready.
fn is_ready() -> bool {
    let mut waited = [pollfd {
        fd: libc::STDERR_FILENO,
        events: POLLOUT,
        revents: 0,
    }];
    poll(&mut waited, 0) != 0
}
