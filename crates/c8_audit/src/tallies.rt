//! Counts the records of a reading.

ghost use Rattle.std.specs.Prelude.{◌≡◌, length};
ghost use Rattle.c8_log.specs.Slots.{kept};

use c8_log::{kept_body, kept_len};

/// The kinds of three records, as the first byte of a body names them.
const HEAD: u8 = 1;

const EPOCH: u8 = 2;

const CHECK: u8 = 9;

/// The records of a reading, counted.
#[derive(Clone, Copy, Debug, Default, PartialEq, Eq)]
pub struct Tally {
    /// How many records.
    pub records: usize,
    /// How many of them are HEAD and EPOCH records.
    pub epochs: usize,
    /// The number of the last CHECK record; 0 if there is none.
    pub last_check: usize,
}

/// Counts the records that a journal's bytes keep. It looks only at the kind of each.
pub fn tally_of(image: &[u8]) -> Tally
    ensures { result.records ≡ length (kept image.now) }
{
    let records = kept_len(image);
    let mut epochs: usize = 0;
    let mut last_check = 0;
    for n in 0..records {
        match kept_body(image, n)[0] {
            HEAD | EPOCH => epochs = epochs.saturating_add(1),
            CHECK => last_check = n,
            _ => {}
        }
    }
    Tally {
        records,
        epochs,
        last_check,
    }
}
