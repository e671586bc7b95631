//! The readers of rows: `rows`, which borrows the confirmed ones, and `best_row`.
ghost use Rattle.std.specs.Prelude.{◌≡◌, ◌≤◌, ◌<◌, ◌==◌, take, length};
ghost use Rattle.c8_known.specs.Known.{player_in};
ghost use Rattle.c8_known.specs.Confirmed.{confirmed, row, best_row};

use super::Peer;
use c8_disk::Disk;
use c8_game::{Input, Player, Row};
use c8_known::Known;
use std::marker::Model;

/// The confirmed rows of a peer, borrowed from it. They never change.
#[derive(Drop)]
pub struct Rows<'a> {
    known: &'a Known,
}

/// The model is what the peer knows.
impl<'a> Model for Rows<'a> {
    ghost use Rattle.c8_known.specs.Known.{KnownValue};

    ghost Value = { KnownValue };

    ghost view = { λ rows. rows.known.now };
}

impl<'a> Rows<'a> {
    /// Returns how many frames are confirmed.
    pub fn len(&self) -> u32
        ensures { result ≡ confirmed self.now }
    {
        self.known.confirmed()
    }

    /// Returns whether no frame is confirmed yet.
    pub fn is_empty(&self) -> bool
        ensures { result ≡ (confirmed self.now == 0) }
    {
        self.len() == 0
    }

    /// Returns how many players have inputs in a row.
    pub fn players(&self) -> u8
        ensures { result ≡ length self.now.players }
    {
        self.known.players()
    }

    /// Returns the inputs of all players at a confirmed frame, counted from 0.
    pub fn row(&self, frame: u32) -> Row
        requires { frame < confirmed self.now }
        ensures { result ≡ row self.now frame }
    {
        self.known.row(frame)
    }

    /// Borrows a player's inputs of the confirmed frames, one per frame, as far as the peer holds them. Past the end
    /// of a cut list the inputs are 0 and not in the slice, so it can be shorter than the confirmed frames.
    pub fn inputs(&self, player: Player) -> &'a [Input]
        requires { player.number ≤ length self.now.players }
        ensures { result.now ≡ take (confirmed self.now) (player_in self.now player.number).held }
    {
        let held = self.known.count(player);
        self.known.inputs(player, 0, self.len().min(held))
    }
}

impl<'g, D: Disk> Peer<'g, D> {
    ghost use Rattle.c8_peer.specs.Peer.{known_by};

    /// Borrows the confirmed rows.
    pub fn rows(&self) -> Rows<'_>
        ensures known { result ≡ known_by self.now }
        ensures players { length result.players ≡ self.now.rules.players }
    {
        Rows { known: &self.known }
    }

    /// Returns the best guess at the inputs of a frame, counted from 0: each player's settled input, else its last held
    /// one. Below `confirmed` it is the confirmed row.
    pub fn best_row(&self, frame: u32) -> Row
        ensures { result ≡ best_row (known_by self.now) frame }
    {
        self.known.best(frame)
    }
}
