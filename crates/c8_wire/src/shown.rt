//! Datagrams as text.
use crate::datagram::Datagram;
use crate::header::Header;
use crate::run::Run;
use crate::showing::Show;
use c8_game::{Player, WireVersion};
use std::fmt;

/// Shows the fields in lines, without a line feed after the last. The version is shown only if it is 2.
/// A run is shown as its inputs, four hexadecimal digits each, in both versions.
impl<'a> fmt::Display for Datagram<'a> {
    fn fmt<W: fmt::Write>(&self, f: &mut fmt::Formatter<W>) -> fmt::Result {
        show_header(f, self.header())?;
        match self {
            Datagram::Hello(_) => Ok(()),
            Datagram::Welcome(welcome) => put(f, "\nack ", welcome.ack()),
            Datagram::Seen(seen) => put(f, "\nack ", seen.ack()),
            Datagram::Data(data) => {
                put(f, "\nack ", data.ack())?;
                put(f, "\nmark ", data.mark_frame())?;
                put_hex(f, " ", u64::from_be_bytes(data.mark()))?;
                show_run(f, data.start(), data.run())
            }
            Datagram::Freeze(freeze) => show_leaver(f, freeze.leaver(), " have ", freeze.have()),
            Datagram::Frozen(frozen) => {
                show_leaver(f, frozen.leaver(), " held ", frozen.held())?;
                show_run(f, frozen.start(), frozen.run())
            }
            Datagram::Cut(cut) => {
                show_leaver(f, cut.leaver(), " length ", cut.length())?;
                show_run(f, cut.start(), cut.run())
            }
            Datagram::Show(show) => show_rows(f, show),
        }
    }
}

fn put<W: fmt::Write>(f: &mut fmt::Formatter<W>, name: &str, value: u32) -> fmt::Result {
    write!(f, "{name}{value}")
}

fn put_hex<W: fmt::Write>(f: &mut fmt::Formatter<W>, name: &str, value: u64) -> fmt::Result {
    write!(f, "{name}{value:016x}")
}

fn show_header<W: fmt::Write>(f: &mut fmt::Formatter<W>, header: Header<'_>) -> fmt::Result {
    let kind = header.kind();
    write!(f, "kind {kind}")?;
    if let WireVersion::Two = header.version() {
        put(f, "\nversion ", 2)?;
    }
    put_hex(f, "\nsession ", header.session())?;
    put_all(
        f,
        &[
            ("\nfrom ", header.from().number.into()),
            (" to ", header.to().number.into()),
            ("\nepochs ", header.sender_epoch()),
            (" ", header.addressee_epoch()),
        ],
    )
}

fn put_all<W: fmt::Write>(f: &mut fmt::Formatter<W>, numbers: &[(&str, u32)]) -> fmt::Result {
    for (name, number) in numbers {
        write!(f, "{name}{number}")?;
    }
    Ok(())
}

fn show_leaver<W: fmt::Write>(
    f: &mut fmt::Formatter<W>,
    leaver: Player,
    name: &str,
    inputs: u32,
) -> fmt::Result {
    put(f, "\nleaver ", leaver.number.into())?;
    put(f, name, inputs)
}

fn show_run<W: fmt::Write>(f: &mut fmt::Formatter<W>, start: u32, run: Run<'_>) -> fmt::Result {
    show_start(f, start, run.len())?;
    f.write_str("\nrun")?;
    for word in run.iter() {
        write!(f, " {word:04x}")?;
    }
    Ok(())
}

fn show_rows<W: fmt::Write>(f: &mut fmt::Formatter<W>, show: &Show<'_>) -> fmt::Result {
    let rows = show.rows();
    show_start(f, show.start(), rows.len())?;
    for place in 0..rows.len() {
        let [one, two, three, four] = rows.get(place).sets;
        write!(f, "\nrow {one} {two} {three} {four}")?;
    }
    Ok(())
}

fn show_start<W: fmt::Write>(f: &mut fmt::Formatter<W>, start: u32, count: usize) -> fmt::Result {
    put(f, "\nstart ", start)?;
    write!(f, " count {count}")
}
