//! Arguments that cannot be read.
use c8_command::{Status, status_at, words_in};
use std::alloc::Global;
use std::io;

fn kind_of(number: u8) -> io::ErrorKind {
    match number {
        0 => io::ErrorKind::InvalidData,
        1 => io::ErrorKind::OutOfMemory,
        _ => io::ErrorKind::Other,
    }
}

/// The status of a program whose arguments fail so.
fn status_of(alloc: Global, number: u8, refused: &mut Vec<u8>) -> u8 {
    let ended = match words_in(alloc, Err(kind_of(number).into()), refused) {
        Ok(Some(_)) => Ok(Status::Done),
        Ok(None) => Ok(Status::CommandLine),
        Err(error) => Err(error),
    };
    status_at(ended, refused).code()
}

/// The number of the error, and the status and the line that follow.
static UNREAD: [(u8, u8, &str); 3] = [
    (0, 2, "error: an argument is not UTF-8\n"),
    (1, 1, "refused: open 5 Memory\n"),
    (2, 3, "refused: disk 1 Failed\n"),
];

fn unread() -> &'static [(u8, u8, &'static str)] {
    &UNREAD
}

#[test]
fn arguments_that_cannot_be_read(rt: HostRuntime) {
    for (number, status, line) in unread() {
        let mut refused = Vec::new(rt.alloc());
        let ended = status_of(rt.alloc(), *number, &mut refused);
        assert!(rt;
            ended == *status && refused.as_slice() == line.as_bytes(),
            "row {number}"
        );
    }
}
