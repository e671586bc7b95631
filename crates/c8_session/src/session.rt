//! The session of a peer.
ghost use Rattle.std.specs.Prelude.{◌≡◌, ◌≢◌, ◌<◌, ◌⊎◌, ◌↔◌, true, false, IfNone, IfSome, IsTrue};
ghost use Rattle.c8_peer.specs.Peer.{IsSound};
ghost use Rattle.c8_session.specs.Due.{is_speaking};
ghost use Rattle.c8_session.specs.Notes.{notes_of, no_notes, rests_briefly, after_turn};
ghost use Rattle.c8_session.specs.Rest.{IsOver};

use crate::rollbacks::Rollbacks;
use crate::schedule::Schedule;
use crate::silence::Life;
use crate::speaking::MOST_WATCHERS;
use c8_disk::Disk;
use c8_game::{Game, Player};
use c8_peer::Peer;
use std::fmt;

/// A peer, and what its session remembers from turn to turn.
#[derive(Drop)]
pub struct Session<'g, D: Disk> {
    pub(crate) peer: Peer<'g, D>,
    pub(crate) schedule: Schedule,
    /// Which watchers are shown the confirmed rows, by seat.
    pub(crate) is_shown: [bool; MOST_WATCHERS],
    /// The next place of this turn at which a datagram may be due, or [`NOT_SPEAKING`].
    pub(crate) place: u8,
    pub(crate) rollbacks: Rollbacks,
}

/// `place` while no datagrams are due: from the end of a turn until the next `turn`.
pub(crate) const NOT_SPEAKING: u8 = u8::MAX;

/// Prints the peer.
impl<'g, D: Disk> fmt::Debug for Session<'g, D> {
    fn fmt<W: fmt::Write>(&self, f: &mut fmt::Formatter<W>) -> fmt::Result {
        let peer = &self.peer;
        write!(f, "Session {{ peer: {peer:?} }}")
    }
}

impl<'g, D: Disk> Session<'g, D> {
    /// Creates the session of a peer, before its first turn. Once `interval` frames were confirmed since the last
    /// checkpoint, the next one begins: one record a turn, 37 in all. A later opening of the journal starts there. With
    /// `interval` 0 it makes no checkpoints. With `patience` player 1 drops a player after that many silent turns.
    pub fn new(
        peer: Peer<'g, D>,
        game: &Game,
        patience: Option<u64>,
        interval: u32,
    ) -> Session<'g, D>
        ensures peer { result.peer ≡ peer.entry }
        ensures notes { notes_of result ≡ no_notes game.now.frames }
        ensures speaks { is_speaking result ≡ false }
    {
        Session {
            peer,
            schedule: Schedule::new(game, patience, interval),
            is_shown: [false; MOST_WATCHERS],
            place: NOT_SPEAKING,
            rollbacks: Rollbacks::default(),
        }
    }

    /// Returns the peer.
    pub fn peer(&self) -> &Peer<'g, D>
        ensures { result.now ≡ self.now.peer }
    {
        &self.peer
    }

    /// For proofs: what holds for every peer between two calls.
    pub fn is_sound(&self)
        ensures { IsSound D.Disk self.now.peer }
    {
        self.peer.is_sound();
    }

    /// Returns the number of frames of the game.
    pub fn frames(&self) -> u32
        ensures { result ≡ (notes_of self.now).resting.frames }
    {
        self.schedule.frames()
    }

    /// Begins a turn: each player has been silent for one turn more.
    pub fn begin(&mut self)
        ensures peer { self.new.peer ≡ self.old.peer }
        ensures notes { notes_of self.new ≡ notes_of self.old }
    {
        self.schedule.begin();
    }

    /// Ends a turn after its datagrams: it has answered all who had greeted. Returns whether there was one to end.
    pub fn end(&mut self) -> bool
        ensures peer { self.new.peer ≡ self.old.peer }
        ensures ended { result ≡ is_speaking self.old }
        ensures speaks { is_speaking self.new ≡ false }
        ensures notes { notes_of self.new ≡ after_turn result self.old.peer (notes_of self.old) }
    {
        if self.place == NOT_SPEAKING {
            return false;
        }
        self.place = NOT_SPEAKING;
        self.schedule.end(&self.peer);
        true
    }

    /// Returns the rollbacks since the last `forget_rollbacks`.
    pub fn rollbacks(&self) -> Rollbacks {
        self.rollbacks
    }

    /// Counts rollbacks from 0 again.
    pub fn forget_rollbacks(&mut self)
        ensures peer { self.new.peer ≡ self.old.peer }
        ensures notes { notes_of self.new ≡ notes_of self.old }
    {
        self.rollbacks = Rollbacks::default();
    }

    /// Counts this as a sign of life of a player from now on. Without this call it is a datagram that an open link
    /// admitted.
    pub fn counts(&mut self, life: Life)
        ensures peer { self.new.peer ≡ self.old.peer }
        ensures notes { notes_of self.new ≡ notes_of self.old }
    {
        self.schedule.counts(life);
    }

    /// Makes player 1 rest 120 turns at the end even if it has dropped a player: the rule of `peer`. Without this call it
    /// rests 1,200 turns then.
    pub fn rests_briefly(&mut self)
        ensures peer { self.new.peer ≡ self.old.peer }
        ensures notes { notes_of self.new ≡ rests_briefly (notes_of self.old) }
    {
        self.schedule.rests_briefly();
    }

    /// Returns whether the others know more of this player than its journal does: a later epoch, or more inputs. The
    /// journal that this came from is gone. Such a player cannot play on, and player 1 may drop it.
    pub fn is_lost(&self) -> bool
        ensures { result ≡ self.now.schedule.is_lost }
    {
        self.schedule.is_lost()
    }

    /// Returns how many turns have begun since the last sign of life of the player, or since the start.
    pub fn silent(&self, player: Player) -> u64 {
        self.schedule.silent(player)
    }

    /// Returns whether the session is over: the peer knows that it was dropped, or it has rested. After all frames are
    /// confirmed and acknowledged it rests for 120 turns, and player 1 for 1,200 if it has dropped a player: nothing
    /// acknowledges a CUT, so a player that was away may need it still.
    pub fn is_over(&self) -> bool
        ensures { IsTrue result ↔ IsOver self.now }
    {
        self.peer.dropped() || self.schedule.has_rested(&self.peer)
    }

    /// Makes player 1 drop this player in the next turn, whether or not it is silent. At another player's peer it
    /// changes nothing.
    pub fn give_up(&mut self, player: Player)
        ensures peer { self.new.peer ≡ self.old.peer }
        ensures notes { notes_of self.new ≡ notes_of self.old }
    {
        self.schedule.give_up(player);
    }

    /// Returns the other player with this number: `None` for this peer's own number and for one that nobody has.
    pub(crate) fn other(&self, number: u8) -> Option<Player>
        ensures some { IfSome result (λ player. (player.number ≡ number) × (number ≢ self.now.peer.me)) }
        ensures none { IfNone result ((number ≡ self.now.peer.me) ⊎ ((number < 1) ⊎ (4 < number))) }
    {
        if number == self.peer.me().number {
            None
        } else {
            Player::new(number)
        }
    }
}
