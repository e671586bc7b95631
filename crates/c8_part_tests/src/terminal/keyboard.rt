//! Bytes that a terminal sends, and the signals that a decoder returns for them.
use c8_terminal::Signal::{Down, GiveUp, Help, LetGo, Quit, Repaint, Struck, Up};
use c8_terminal::{Decoder, Signal};

/// Bytes that a terminal sends to a new decoder, and the signals.
struct Row {
    sent: &'static str,
    told: &'static [Signal],
}

#[rattlefmt::skip]
static ROWS: [Row; 11] = [
    // Keys by their places, in both encodings.
    Row { sent: "1234qwer", told: &[Struck(0x1), Struck(0x2), Struck(0x3), Struck(0xc), Struck(0x4), Struck(0x5), Struck(0x6), Struck(0xd)] },
    Row { sent: "asdfZXCV", told: &[Struck(0x7), Struck(0x8), Struck(0x9), Struck(0xe), Struck(0xa), Struck(0x0), Struck(0xb), Struck(0xf)] },
    Row { sent: "\x1b[49u\x1b[50;1u\x1b[51;1:1u\x1b[52;1:2u\x1b[97;1:3u", told: &[Struck(0x1), Struck(0x2), Down(0x3), Down(0xc), Up(0x7)] },
    // By the place on an English keyboard, if the terminal gives it.
    Row { sent: "\x1b[?15u\x1b[1081::113u\x1b[1081::113;129u\x1b[1081::113;1:3u\x1b[1081:1049:113;2u", told: &[Down(4), Down(4), Up(4), Down(4)] },
    // Characters without such a place.
    Row { sent: "5tgb0-; \r\n\t\x7f\x00\x01ÿй\u{10ffff}€", told: &[] },
    // Arrows, the focus, quitting, giving up and repainting.
    Row { sent: "\x1b[A\x1b[B\x1bOC\x1bOD\x1b[I1\x1b[O", told: &[Struck(5), Struck(8), Struck(9), Struck(7), Struck(1), LetGo] },
    Row { sent: "\x03\x0c\x04\x1b[99;5u\x1b[108;5u\x1b[100;5u\x1b[27u", told: &[Quit, Repaint, GiveUp, Quit, Repaint, GiveUp, Quit] },
    // F1: a press, not a repeat or a release.
    Row { sent: "\x1bOP\x1b[P\x1b[1;1:1P\x1b[1;1:2P\x1b[1;1:3P1", told: &[Help, Help, Help, Struck(1)] },
    // The first escape is the key.
    Row { sent: "\x1b\x1b[A", told: &[Quit, Struck(5)] },
    // Sequences without a signal, and broken ones.
    Row { sent: "\x1b[200~q\x1b[?62;4c1\x1b[ q2\x1bOQw", told: &[Struck(4), Struck(1), Struck(2), Struck(5)] },
    Row { sent: "\x1b[1;\x03\x1b[97\x1b[A\x1bO\x03", told: &[Quit, Struck(5), Quit] },
];

fn rows() -> &'static [Row] {
    &ROWS
}

/// Returns whether a decoder gives the signals of a row, and no more if nothing follows.
fn tells(row: &Row) -> bool {
    let mut decoder = Decoder::new();
    let mut left = row.told;
    for byte in row.sent.as_bytes() {
        if let Some(signal) = decoder.take(*byte) {
            match left {
                [first, rest @ ..] if *first == signal => left = rest,
                _ => return false,
            }
        }
    }
    left.is_empty() && decoder.pause().is_none()
}

#[test]
fn what_is_sent_is_told(rt: HostRuntime) {
    for row in rows() {
        assert!(rt; tells(row), "{}", row.sent.escape_debug());
    }
}

/// Returns what a new decoder gives for a byte and for a pause after it.
fn paused_after(byte: u8) -> [Option<Signal>; 2] {
    let mut decoder = Decoder::default();
    [decoder.take(byte), decoder.pause()]
}

#[test]
fn an_escape_alone_is_the_key(rt: HostRuntime) {
    assert!(rt; paused_after(0x1b) == [None, Some(Quit)]);
}
