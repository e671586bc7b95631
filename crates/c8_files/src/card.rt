//! Match cards: a game's text with comments that say where its match is.

ghost use Rattle.std.specs.Prelude.{◌≡◌, MatchOption};
ghost use Rattle.std.specs.Str.Lines.{lines};
ghost use Rattle.c8_files.specs.Card.{NoneBegins, IsFirstBehind};

use c8_game::Lines;

/// How the lines of a card begin that have the room, the secret, the relay, or player 1's address.
pub const CARD_ROOM: &[u8] = b"# match room ";

pub const CARD_SECRET: &[u8] = b"# match secret ";

pub const CARD_RELAY: &[u8] = b"# match relay ";

pub const CARD_HOST: &[u8] = b"# match host ";

/// The mark with which some editors begin a text.
const MARK: &str = "\u{feff}";

/// Returns what stands behind this beginning on the first line of a text that has it; `None` if no line has it. Lines are
/// those of a game's text.
pub fn first_behind<'t>(text: &'t [u8], begin: &[u8]) -> Option<&'t [u8]>
    ensures { MatchOption result
        (NoneBegins begin.now (lines text.entry.now))
        (λ rest. IsFirstBehind begin.now (lines text.entry.now) rest.now) }
{
    for line in Lines::new(text) {
        let rest = line.strip_prefix(begin);
        if rest.is_some() {
            return rest;
        }
    }
    None
}

/// Returns the word behind this beginning on a card, without spaces at its ends; `None` if there is none, or if it is not UTF-8.
pub fn on_card<'t>(text: &'t [u8], begin: &[u8]) -> Option<&'t str> {
    match str::from_utf8(first_behind(text, begin)?) {
        Ok(word) => Some(word.trim()),
        Err(_) => None,
    }
}

/// Returns a text without the spaces, ends of lines and marks that editors add at its ends; one that is not UTF-8 as it is.
pub(crate) fn trimmed(text: &[u8]) -> &[u8] {
    match str::from_utf8(text) {
        Ok(text) => text.strip_prefix(MARK).unwrap_or(text).trim().as_bytes(),
        Err(_) => text,
    }
}
