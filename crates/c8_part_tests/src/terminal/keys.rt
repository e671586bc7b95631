//! The keys of players in words, and the row that shows those of all.
use c8_game::{Game, Player};
use c8_terminal::{KeyRow, KeyWords};
use std::alloc::Global;
use std::time::Duration;

/// A game text with the keys of its players.
const TEXT: &[u8] =
    b"# Two paddles.\n# keys 1: 1 up, q down, a serve\r\n# keys 2: 4 up, r down, f serve\n# keys 3: \x1b[2J\nplayers 2\n";

/// Words of 48 bytes, and of 49.
const LONGEST: &[u8] = b"# keys 1: 123456789 123456789 123456789 123456789 12345678";

const TOO_LONG: &[u8] = b"# keys 1: 123456789 123456789 123456789 123456789 123456789";

/// Keys that a game has only in its masks.
const PLAIN: &[u8] =
    b"players 2\nipf 10\nframes 60\ndelay 0\nwindow 8\nseed 0\nmask1 0000\nmask2 7001\ncode 1200\n";

/// Whether these are the words of a player in a text.
fn are_words(text: &[u8], number: u8, wanted: &[u8]) -> bool {
    let player = Player::new(number).unwrap_or(Player::CHAIR);
    KeyWords::in_text(text, player).bytes() == wanted
}

/// Whether a player's words without a comment are the letters of its mask, and a comment goes before.
fn are_letters(alloc: Global) -> bool {
    let Ok(game) = Game::read(alloc, PLAIN) else {
        return false;
    };
    let (one, two) = (Player::CHAIR, Player { number: 2 });
    let letters = KeyWords::none().or_letters(&game, two);
    let words = KeyWords::in_text(TEXT, two).or_letters(&game, two);
    let nothing = KeyWords::none().or_letters(&game, one);
    letters.bytes() == b"keys x 4 r f".as_slice()
        && words.bytes() == b"4 up, r down, f serve".as_slice()
        && nothing.bytes().is_empty()
}

#[test]
fn a_game_names_the_keys(rt: HostRuntime) {
    assert!(rt; are_words(TEXT, 1, b"1 up, q down, a serve"));
    assert!(rt; are_words(TEXT, 2, b"4 up, r down, f serve"));
    // no bytes that a terminal would obey
    assert!(rt; are_words(TEXT, 3, b"") && are_words(TEXT, 4, b""));
    assert!(rt; are_words(LONGEST, 1, &LONGEST[10..]));
    assert!(rt; are_words(TOO_LONG, 1, b""));
    assert!(rt; are_letters(rt.alloc()));
}

/// A game of two with the keys in words.
const GAME: &[u8] =
    b"# keys 1: 1 up, q down, a serve\n# keys 2: 4 up, r down, f serve\nplayers 2\nipf 10\nframes 30\ndelay 0\nwindow 8\nseed 0\nmask1 0020\nmask2 2000\ncode a206d0011204f000\n";

/// The milliseconds, whether the person asks, and what is then written.
type Shown = (u64, bool, &'static [u8]);

#[rattlefmt::skip]
static SHOWN: [Shown; 6] = [
    (0, false, b"\x1b[17;1H\x1b[K1: 1 up, q down, a serve  2: 4 up, r down, f serve  Escape ends"),
    (9_999, false, b""),
    (10_000, false, b"\x1b[17;1H\x1b[K"),
    (11_000, true, b"\x1b[17;1H\x1b[K1: 1 up, q down, a serve  2: 4 up, r down, f serve  Escape ends"),
    (20_999, false, b""),
    (21_000, false, b"\x1b[17;1H\x1b[K"),
];

/// Whether the keys of all players are shown for ten seconds, and for ten seconds after the person asks.
fn shows_all_keys(alloc: Global) -> bool {
    let Ok(game) = Game::read(alloc, GAME) else {
        return false;
    };
    let mut row = KeyRow::new(&game, GAME, 64);
    for (millis, is_asked, wanted) in &SHOWN {
        if *is_asked {
            row.remind();
        }
        if row.row(Duration::from_millis(*millis), b"") != *wanted {
            return false;
        }
    }
    row.row(Duration::from_secs(22), b"\x07") == b"\x07".as_slice()
}

#[test]
fn who_plays_alone_sees_all_keys(rt: HostRuntime) {
    assert!(rt; shows_all_keys(rt.alloc()));
}
