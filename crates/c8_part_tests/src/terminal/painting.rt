//! The exact bytes of paintings.
use c8_screen::Screen;
use c8_terminal::{ENTER, LEAVE, LONGEST_PAINTING, Painter};

/// The ninth row of text, with each of the four characters.
const NINTH: &str = "\x1b[9;1H▀▀██▄▄                                                         █";

/// Paints a dark screen, and then one with points in two rows.
fn paint(painter: &mut Painter) {
    let mut rows = [0; 32];
    painter.paint(&Screen::of_rows(&rows));
    rows[16] = 0xf000000000000001;
    rows[17] = 0x3c00000000000001;
    painter.paint(&Screen::of_rows(&rows));
}

#[test]
fn only_what_changed_is_written(rt: HostRuntime) {
    let mut painter = Painter::default();
    assert!(rt; painter.bytes().is_empty());
    paint(&mut painter);
    assert!(rt; painter.bytes() == NINTH.as_bytes());
    assert!(rt; LONGEST_PAINTING == 3184);
}

#[test]
fn a_picture_begins_and_ends(rt: HostRuntime) {
    let enter = [
        27, 91, 63, 49, 48, 52, 57, 104, 27, 91, 63, 50, 53, 108, 27, 91, 50, 74,
    ];
    let leave = [27, 91, 63, 50, 53, 104, 27, 91, 63, 49, 48, 52, 57, 108];
    assert!(rt; ENTER == enter.as_slice() && LEAVE == leave.as_slice());
}
