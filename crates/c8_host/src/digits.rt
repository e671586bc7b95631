//! The digits of a secret from standard input.

use std::alloc::Global;
use std::io;
use std::io::Read;

/// How many bytes are read at most: more than a secret has.
const MOST: usize = 80;

/// How many digits a secret has.
const DIGITS: usize = 64;

/// Reads the first line of an input, without spaces and tabs, and without its end: LF, CR or the end of the input. It reads
/// no byte after that, and stops after 80 bytes. The error is the reader's, or that memory ran out.
pub fn digits_in<I: Read>(alloc: Global, input: &mut I) -> io::Result<Vec<u8>> {
    let mut digits = Vec::with_capacity(alloc, MOST)?;
    let mut byte = [0];
    for _ in 0..MOST {
        if input.read(&mut byte)? == 0 || byte == [b'\n'] || byte == [b'\r'] {
            break;
        }
        if byte != [b' '] && byte != [b'\t'] {
            digits.push(byte[0])?;
        }
    }
    Ok(digits)
}

/// Whether these are the digits of a secret.
pub(crate) fn is_secret(digits: &[u8]) -> bool {
    digits.len() == DIGITS && digits.iter().all(|digit| digit.is_ascii_hexdigit())
}
