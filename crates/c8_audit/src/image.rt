//! The bytes of a journal's file.

ghost use Rattle.std.specs.Prelude.{◌≡◌, ◌≤◌, Ok, IfOk, IfSome, true, length};
ghost use Rattle.std.specs.Io.KnownBytes.{Consumes, IsAtEnd};

use c8_command::TextError;
use std::alloc::Global;
use std::fs;
use std::fs::OpenFile;
use std::io::{ErrorKind, Read};
use std::rt::Files;

/// The most bytes of a journal: as many as a peer writes.
pub const LONGEST_IMAGE: u64 = 1_073_741_824;

/// How many bytes of a file are compared at a time: few enough to stay in a processor's cache.
const BLOCK: usize = 65_536;

/// Reads the bytes of a journal's file. It does not lock the file, so a peer may be writing to it.
pub fn read_image<R: Files + AllocGlobal>(rt: &R, path: &str) -> Result<Vec<u8>, TextError> {
    let Ok(file) = fs::open(rt, path) else {
        return Err(TextError::Failed);
    };
    let size = match file.metadata() {
        Ok(data) => data.len(),
        Err(_) => 0,
    };
    image_of(rt.alloc(), file, size)
}

/// Reads all that a reader has left. It takes memory for `size` bytes at once, which saves copies if the reader has as many.
/// `Failed` if the reader fails or has more than `LONGEST_IMAGE` bytes.
pub fn image_of<R: Read + Drop>(alloc: Global, reader: R, size: u64) -> Result<Vec<u8>, TextError>
    ensures whole { IfOk result
        (λ image. IfSome (R.remaining reader) (λ bytes. image.items ≡ bytes)) }
    ensures bounded { IfOk result (λ image. length image.items ≤ LONGEST_IMAGE) }
{
    // One byte more has room for the read that finds the end.
    let room = size.min(LONGEST_IMAGE) as usize + 1;
    let Ok(mut image) = Vec::with_capacity(alloc, room) else {
        return Err(TextError::Memory);
    };
    match reader.take(LONGEST_IMAGE + 1).read_to_end(&mut image) {
        Ok(_) if image.len() as u64 <= LONGEST_IMAGE => Ok(image),
        Ok(_) => Err(TextError::Failed),
        Err(error) if error.kind() == ErrorKind::OutOfMemory => Err(TextError::Memory),
        Err(_) => Err(TextError::Failed),
    }
}

/// Reads the bytes of a journal's file once more. Returns `None` if they are those of `first`: then it keeps no second
/// image. If they are not, it reads the file again from its start.
pub fn read_again<R: Files + AllocGlobal>(
    rt: &R,
    path: &str,
    first: &[u8],
) -> Result<Option<Vec<u8>>, TextError> {
    let Ok(file) = fs::open(rt, path) else {
        return Err(TextError::Failed);
    };
    if has_bytes(rt.alloc(), file, first)? {
        return Ok(None);
    }
    let image = read_image(rt, path)?;
    Ok(Some(image))
}

/// Returns whether a reader has these bytes left, and no others. It takes memory for one block. `Failed` if the reader
/// fails.
pub fn has_bytes<R: Read + Drop>(
    alloc: Global,
    mut reader: R,
    bytes: &[u8],
) -> Result<bool, TextError>
    ensures { result ≡ Ok true → IfSome (R.remaining reader) (λ left. left ≡ bytes.now) }
{
    let mut block = Vec::new(alloc);
    if block.resize(BLOCK, 0).is_err() {
        return Err(TextError::Memory);
    }
    let whole = bytes.len() / BLOCK;
    for n in 0..whole {
        let piece = &bytes[BLOCK * n..BLOCK * n + BLOCK];
        if !goes_on_with(&mut reader, piece, &mut block)? {
            return Ok(false);
        }
    }
    let rest = &bytes[BLOCK * whole..];
    if !goes_on_with(&mut reader, rest, &mut block[..rest.len()])? {
        return Ok(false);
    }
    is_at_end(alloc, reader)
}

/// Reads as many bytes as a piece has, and returns whether they are the piece. `block` is as long as the piece.
fn goes_on_with<R: Read>(reader: &mut R, piece: &[u8], block: &mut [u8]) -> Result<bool, TextError>
    ensures { result ≡ Ok true
        → Consumes (R.remaining reader.old) (R.remaining reader.new) piece.now }
{
    match reader.read_exact(block) {
        Ok(()) => Ok(*block == *piece),
        Err(error) if error.kind() == ErrorKind::UnexpectedEof => Ok(false),
        Err(_) => Err(TextError::Failed),
    }
}

/// Returns whether a reader has no bytes left.
fn is_at_end<R: Read + Drop>(alloc: Global, reader: R) -> Result<bool, TextError>
    ensures { result ≡ Ok true → IsAtEnd (R.remaining reader) }
{
    let mut more = Vec::new(alloc);
    match reader.take(1).read_to_end(&mut more) {
        Ok(_) => Ok(more.is_empty()),
        Err(error) if error.kind() == ErrorKind::OutOfMemory => Err(TextError::Memory),
        Err(_) => Err(TextError::Failed),
    }
}
