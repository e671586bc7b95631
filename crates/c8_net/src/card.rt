//! What a match card says of its match.

use c8_files::{CARD_HOST, CARD_RELAY, CARD_ROOM, CARD_SECRET, first_behind, on_card};
use c8_wire::Watcher;
use std::alloc::{AllocError, Global};

/// How the line of a card begins that has the seat of a watcher.
pub const CARD_SEAT: &[u8] = b"# match seat ";

/// What a card says of its match, beside the game and the secret.
#[derive(Drop)]
pub struct Card {
    pub room: u64,
    /// The address or name of the relay, or of player 1.
    pub there: String,
    pub is_relay: bool,
    /// The watcher's seat, if the card is for one; its secret is then that of the watchers.
    pub seat: Option<Watcher>,
}

/// Returns what the text of a card says; `None` if it is none: it lacks the room, the secret, or an address, or has a seat that is
/// no watcher's.
pub fn card_in(alloc: Global, text: &[u8]) -> Result<Option<Card>, AllocError> {
    let Some(room) = on_card(text, CARD_ROOM) else {
        return Ok(None);
    };
    let Ok(room) = room.parse::<u64>() else {
        return Ok(None);
    };
    let relay = on_card(text, CARD_RELAY);
    let Some(there) = relay.or(on_card(text, CARD_HOST)) else {
        return Ok(None);
    };
    let named = on_card(text, CARD_SEAT);
    let seat = named.and_then(seat_of);
    if first_behind(text, CARD_SECRET).is_none() || named.is_some() != seat.is_some() {
        return Ok(None);
    }
    Ok(Some(Card {
        room,
        there: format!(in alloc; "{there}")?,
        is_relay: relay.is_some(),
        seat,
    }))
}

/// The watcher's seat that a word names.
fn seat_of(word: &str) -> Option<Watcher> {
    match word.parse::<u8>() {
        Ok(number) => Watcher::new(number),
        Err(_) => None,
    }
}
