//! What a peer shows of its journal, its counts and its links, as one value.
use c8_disk::MemDisk;
use c8_game::Player;
use c8_peer::Peer;

/// What a peer shows of one player.
#[derive(Clone, Copy, PartialEq, Eq)]
pub(crate) struct OfPlayer {
    /// How many inputs it holds.
    pub(crate) held: u32,
    /// Whether the link is open, and how many own inputs the player acknowledged.
    pub(crate) is_linked: bool,
    acked: u32,
    is_frozen: bool,
    is_leaving: bool,
    cut: Option<u32>,
}

/// What a peer shows.
#[derive(Clone, Copy, PartialEq, Eq)]
pub(crate) struct Tells {
    pub(crate) confirmed: u32,
    pub(crate) alarm: bool,
    pub(crate) players: [OfPlayer; 3],
    now: u32,
    epoch: u32,
    last_run: u32,
    is_down: bool,
    is_dropped: bool,
}

fn of_player(peer: &Peer<'_, MemDisk>, player: Player) -> OfPlayer {
    OfPlayer {
        held: peer.count(player),
        is_linked: peer.is_linked(player),
        acked: peer.acked(player),
        is_frozen: peer.frozen(player),
        is_leaving: peer.leaving(player),
        cut: peer.cut_of(player),
    }
}

pub(crate) fn telling(peer: &Peer<'_, MemDisk>) -> Tells {
    Tells {
        confirmed: peer.confirmed(),
        alarm: peer.alarm(),
        players: [
            of_player(peer, Player { number: 1 }),
            of_player(peer, Player { number: 2 }),
            of_player(peer, Player { number: 3 }),
        ],
        now: peer.now(),
        epoch: peer.epoch(),
        last_run: peer.last_run(),
        is_down: peer.is_down(),
        is_dropped: peer.dropped(),
    }
}
