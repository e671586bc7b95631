//! Tells the person who waits that nothing has come from a player.

use c8_disk::Disk;
use c8_game::{MOST_PLAYERS, Player};
use c8_live::Standing;
use c8_peer::Peer;
use std::io;
use std::io::Write;
use std::time::Duration;

/// After how many seconds without a datagram from a player a line says so.
const PATIENCE: u64 = 10;

/// Who has not been heard since the start. All times are of one clock.
#[derive(Clone, Copy)]
pub(crate) struct Quiet {
    /// Which players a datagram is expected from, by place.
    is_expected: [bool; MOST_PLAYERS],
    /// When the lines are due.
    due: Duration,
    is_told: bool,
}

impl Quiet {
    /// Starts now, for the peer of `me`. Datagrams are expected from each other player whom it does not know as dropped.
    pub(crate) fn new<D: Disk>(now: Duration, peer: &Peer<'_, D>, me: Player) -> Quiet {
        let mut is_expected = [false; MOST_PLAYERS];
        for number in 1..peer.players() + 1 {
            if let Some(player) = Player::new(number) {
                is_expected[player.place()] = number != me.number && peer.cut_of(player).is_none();
            }
        }
        Quiet {
            is_expected,
            due: now.saturating_add(Duration::from_secs(PATIENCE)),
            is_told: false,
        }
    }

    /// Once the lines are due, writes one for each expected player from whom nothing has come so far; afterwards nothing more.
    pub(crate) fn tell<E: Write>(
        &mut self,
        out: &mut E,
        now: Duration,
        standing: &Standing,
    ) -> io::Result<()> {
        if self.is_told || now < self.due {
            return Ok(());
        }
        self.is_told = true;
        for place in 0..MOST_PLAYERS {
            if self.is_expected[place] && standing.heard[place] == 0 {
                let number = place + 1;
                writeln!(
                    out,
                    "nothing from {number} for {PATIENCE} s: address, port, firewall? game, room, secret?"
                )?;
            }
        }
        Ok(())
    }
}
