//! The line of progress: in words, or as JSON.

use crate::hub::Hub;
use arrayvec::ArrayString;
use c8_relay::Relay;
use c8_udp::Counts;
use std::fmt::{Display, Write as _};
use std::io::Write;
use std::{fmt, io};

/// The most bytes of a line: its words, and eleven numbers of 20 digits, each perhaps in quotes.
const LONGEST_LINE: usize = 400;

/// The greatest number that every reader of JSON takes without a loss: 2^53. One above it is written as a text.
const MOST_EXACT: u64 = 9_007_199_254_740_992;

/// Which line is written each second.
#[derive(Clone, Copy, PartialEq, Eq)]
pub enum Progress {
    /// None.
    Nothing,
    /// Words and numbers.
    Words,
    /// An object of JSON.
    Json,
}

impl Progress {
    /// Writes the line, in one call of the writer. It takes no memory.
    pub(crate) fn tell<W: Write>(
        self,
        relay: &Relay,
        hub: &Hub,
        counts: &Counts,
        out: &mut W,
    ) -> io::Result<()> {
        let mut line = ArrayString::<LONGEST_LINE>::new();
        // It fits, so nothing is left out.
        let _ = match self {
            Progress::Nothing => return Ok(()),
            Progress::Words => add_words(&mut line, relay, hub, counts),
            Progress::Json => add_object(&mut line, relay, hub, counts),
        };
        out.write_all(line.as_bytes())?;
        out.flush()
    }
}

/// Adds the line in words.
fn add_words<W: fmt::Write>(
    line: &mut W,
    relay: &Relay,
    hub: &Hub,
    counts: &Counts,
) -> fmt::Result {
    let (rooms, seats) = (relay.rooms(), relay.seats());
    let (connections, lost) = (hub.connections(), hub.lost());
    writeln!(
        line,
        "rooms {rooms} seats {seats} connections {connections} {counts} slow {lost}"
    )
}

/// Adds the object, with its members in the order of their names.
fn add_object<W: fmt::Write>(
    line: &mut W,
    relay: &Relay,
    hub: &Hub,
    counts: &Counts,
) -> fmt::Result {
    let connections = Exact(hub.connections() as u64);
    let (datagrams, joins) = (Exact(counts.carried), Exact(counts.answered));
    write!(
        line,
        "{{\"connections\":{connections},\"datagrams\":{datagrams},\"dropped\":{{"
    )?;
    add_dropped(line, counts)?;
    let (rooms, seats) = (Exact(relay.rooms() as u64), Exact(relay.seats() as u64));
    let slow = Exact(hub.lost());
    writeln!(
        line,
        "}},\"joins\":{joins},\"rooms\":{rooms},\"seats\":{seats},\"slow\":{slow}}}"
    )
}

/// Adds the members of the object of what was dropped.
fn add_dropped<W: fmt::Write>(line: &mut W, counts: &Counts) -> fmt::Result {
    let (crowd, fast) = (Exact(counts.crowd), Exact(counts.fast));
    let (nobody, stranger) = (Exact(counts.nobody), Exact(counts.stranger));
    let unknown = Exact(counts.unknown);
    write!(
        line,
        "\"crowd\":{crowd},\"fast\":{fast},\"nobody\":{nobody},\"stranger\":{stranger},\"unknown\":{unknown}"
    )
}

/// A number as JSON has it.
#[derive(Clone, Copy)]
struct Exact(u64);

impl Display for Exact {
    fn fmt<W: fmt::Write>(&self, f: &mut fmt::Formatter<W>) -> fmt::Result {
        let number = self.0;
        if number > MOST_EXACT {
            write!(f, "\"{number}\"")
        } else {
            write!(f, "{number}")
        }
    }
}
