//! Secrets in files.

use crate::card::{CARD_SECRET, first_behind, trimmed};
use crate::command::random_bytes;
use c8_command::{TextError, read_file};
use c8_transport::{Secret, SecretError};
use std::fs::File;
use std::io::Write;
use std::os::unix::fs::{OpenOptionsExt, PermissionsExt};
use std::rt::Files;
use std::{fs, io};

/// The permissions by which others than the owner may read a file, and by which they may write it.
const OTHERS_READ: u32 = 0o044;

const OTHERS_WRITE: u32 = 0o022;

/// The permissions of a new secret's file.
const OWNER_ONLY: u32 = 0o600;

/// Why a file gives no secret.
#[derive(Clone, Copy, Debug, PartialEq, Eq)]
pub enum SecretFault {
    /// The file was not read.
    Unread(TextError),
    /// It has the text of no secret.
    Refused(SecretError),
}

/// Reads the secret in a file: its digits, or a match card with a line of them. Spaces and ends of lines around the digits do
/// not count.
pub fn secret_in<R>(rt: &R, path: &str) -> Result<Secret, SecretFault>
where
    R: Files<File = File> + AllocGlobal,
{
    let text = match read_file(rt, path) {
        Ok(text) => text,
        Err(error) => return Err(SecretFault::Unread(error)),
    };
    let digits = first_behind(&text, CARD_SECRET).unwrap_or(&text);
    Secret::read(trimmed(digits)).map_err(SecretFault::Refused)
}

/// Makes a file with a new secret that only its owner may read. A file that is there already stays as it is, also one that
/// is made meanwhile: two programs that start at once share it.
pub fn make_secret<R>(rt: &R, path: &str) -> io::Result<()>
where
    R: Files<File = File> + AllocGlobal,
{
    if fs::metadata(rt, path).is_ok() {
        return Ok(());
    }
    match write_secret(rt, path, &Secret::text(&random_bytes(rt)?)) {
        Err(error) if error.kind() == io::ErrorKind::AlreadyExists => Ok(()),
        written => written,
    }
}

/// Makes the file of a secret from its digits. It is written beside, and gets its name once it is whole, so a writing that
/// fails leaves no short secret. The error is `AlreadyExists` if another file has the name, which stays as it is; on a
/// file system without links that file is replaced.
pub fn write_secret<R>(rt: &R, path: &str, digits: &[u8]) -> io::Result<()>
where
    R: Files<File = File> + AllocGlobal,
{
    let beside = beside(rt, path)?;
    let written = match write_new(rt, beside.as_str(), digits) {
        Ok(()) => named(rt, beside.as_str(), path),
        Err(error) => Err(error),
    };
    let _ = fs::remove_file(rt, beside.as_str());
    written
}

/// Makes the file of a match card, which only its owner may read, or replaces it. It is written beside, and gets its name once
/// it is whole.
pub fn write_card<R>(rt: &R, path: &str, text: &[u8]) -> io::Result<()>
where
    R: Files<File = File> + AllocGlobal,
{
    let beside = beside(rt, path)?;
    let written = match write_new(rt, beside.as_str(), text) {
        Ok(()) => fs::rename(rt, beside.as_str(), path),
        Err(error) => Err(error),
    };
    let _ = fs::remove_file(rt, beside.as_str());
    written
}

/// A path beside another, by a number that nobody can guess.
fn beside<R>(rt: &R, path: &str) -> io::Result<String>
where
    R: Files<File = File> + AllocGlobal,
{
    let [one, two, three, four, ..] = random_bytes(rt)?;
    let drawn = u32::from_be_bytes([one, two, three, four]);
    Ok(format!(in rt.alloc(); "{path}.{drawn}")?)
}

/// Gives a file a name that no other file has. On a file system without links it replaces a file that has the name.
fn named<R: Files<File = File>>(rt: &R, beside: &str, path: &str) -> io::Result<()> {
    match fs::hard_link(rt, beside, path) {
        Err(error) if error.kind() != io::ErrorKind::AlreadyExists => fs::rename(rt, beside, path),
        linked => linked,
    }
}

/// Writes digits or a text, and a LF, to a new file that only its owner may read.
fn write_new<R: Files<File = File>>(rt: &R, path: &str, digits: &[u8]) -> io::Result<()> {
    let mut file = File::options()
        .write(true)
        .create_new(true)
        .mode(OWNER_ONLY)
        .open(rt, path)?;
    file.write_all(digits)?;
    file.write_all(b"\n")?;
    file.sync_all()
}

/// Writes a line to `refused` if others than the owner may read or write a secret's file. Only a regular file is looked
/// at. The error is the writer's.
pub fn warn_of_readers<R, E>(rt: &R, path: &str, refused: &mut E) -> io::Result<()>
where
    R: Files<File = File>,
    E: Write,
{
    let Ok(about) = fs::metadata(rt, path) else {
        return Ok(());
    };
    if !about.is_file() {
        return Ok(());
    }
    let mode = about.permissions().mode();
    match (mode & OTHERS_READ != 0, mode & OTHERS_WRITE != 0) {
        (false, false) => Ok(()),
        (true, false) => writeln!(refused, "warning: others may read {path}; chmod 600 {path}"),
        (false, true) => writeln!(
            refused,
            "warning: others may write {path}; chmod 600 {path}"
        ),
        (true, true) => {
            writeln!(
                refused,
                "warning: others may read and write {path}; chmod 600 {path}"
            )
        }
    }
}
