//! How journals and refusals of files are printed.
use crate::calls::new_disk;
use c8_disk::FileError;
use c8_log::{Journal, Log};
use std::alloc::Global;
use std::fmt::{Debug, Display};

/// Whether a value prints a text.
fn prints<T: Display + Drop>(alloc: Global, value: T, text: &str) -> bool {
    match format!(in alloc; "{value}") {
        Ok(printed) => printed.as_str() == text,
        Err(_) => false,
    }
}

/// Whether a value shows a text where it is debugged.
pub(crate) fn shows<T: Debug + Drop>(alloc: Global, value: T, text: &str) -> bool {
    match format!(in alloc; "{value:?}") {
        Ok(shown) => shown.as_str() == text,
        Err(_) => false,
    }
}

/// Whether a file's refusal has this number, this name and this text.
fn file_tells(alloc: Global, error: FileError, number: u8, name: &str, text: &str) -> bool {
    error.number() == number && error.name() == name && prints(alloc, error, text)
}

const UNUSABLE: &str = "the file cannot be used";

const LONG: &str = "the file is longer than the disk's capacity";

#[test]
fn each_refusal_of_a_file_has_its_number_name_and_text(rt: HostRuntime) {
    let alloc = rt.alloc();
    assert!(rt;
        file_tells(alloc, FileError::Failed, 1, "Failed", UNUSABLE)
            && file_tells(alloc, FileError::Full, 2, "Full", LONG)
            && file_tells(alloc, FileError::Memory, 3, "Memory", "out of memory")
            && file_tells(
                alloc,
                FileError::Locked,
                4,
                "Locked",
                "the file is open elsewhere"
            )
    );
}

fn journal_is_shown(alloc: Global) -> bool {
    let Some(disk) = new_disk(alloc, 145) else {
        return false;
    };
    match Log::open(disk) {
        Ok(log) => shows(
            alloc,
            Journal::over(log),
            "Journal { count: 0, down: false }",
        ),
        Err(_) => false,
    }
}

#[test]
fn a_journal_is_shown(rt: HostRuntime) {
    assert!(rt; journal_is_shown(rt.alloc()));
}
