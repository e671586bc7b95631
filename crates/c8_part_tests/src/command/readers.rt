//! Texts whose reader fails.
use c8_command::{TextError, text_of};
use std::alloc::Global;
use std::io;
use std::io::Read;

/// A reader that fails at once.
#[derive(Drop)]
struct Broken(io::ErrorKind);

impl Read for Broken {
    fn read(&mut self, _: &mut [u8]) -> io::Result<usize> {
        Err(self.0.into())
    }
}

/// Why the text of a reader that fails like this is not read, if it is not.
fn error_of(alloc: Global, kind: io::ErrorKind) -> Option<TextError> {
    text_of(alloc, Broken(kind)).err()
}

#[test]
fn a_reader_that_fails(rt: HostRuntime) {
    let memory = error_of(rt.alloc(), io::ErrorKind::OutOfMemory);
    assert!(rt; memory == Some(TextError::Memory));
    let other = error_of(rt.alloc(), io::ErrorKind::Other);
    assert!(rt; other == Some(TextError::Failed));
}
