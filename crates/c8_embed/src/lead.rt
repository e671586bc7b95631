//! Which ticks an engine leaves out, because its player runs ahead of the others.
ghost use Rattle.std.specs.Prelude.{◌≡◌, IsTrue, false};
ghost use Rattle.c8_embed.specs.Lead.{IsNewLead, IsBehind, IsAhead, counted_at, HasAsked};

use c8_disk::Disk;
use c8_game::Player;
use c8_peer::Peer;

/// How many frames in a row ahead leave out a tick: a second's, where 60 are made in it.
const PATIENCE: u8 = 60;

/// Counts the frames in a row in which a player was more than half the window ahead of another player's newest input.
///
/// Each player has its own clock. The player with the fastest clock has all the rollbacks, so it waits: it leaves out
/// one tick a second while it is ahead.
#[derive(Clone, Copy)]
pub struct Lead {
    window: u8,
    frames: u8,
    /// The own ticks at the last question.
    ticked: u32,
}

impl Lead {
    /// Starts the count for a game with this window.
    pub fn new(window: u8) -> Lead
        ensures { IsNewLead window result }
    {
        Lead {
            window,
            frames: 0,
            ticked: 0,
        }
    }

    /// Counts a frame before its tick, and returns whether to leave the tick out: the player is ahead now, and was in
    /// all frames of the last second, each of which was ticked. The count restarts when a tick is left out or was refused,
    /// since a player that has just waited does not wait again, and when the player is not ahead.
    pub fn leaves_out<D: Disk>(&mut self, peer: &Peer<'_, D>) -> bool
        ensures { HasAsked peer.now self.old result self.new }
    {
        let now = peer.now();
        let frames = self.counted_at(now);
        self.ticked = now;
        if !is_ahead(peer, self.window) {
            self.frames = 0;
            return false;
        }
        if frames < PATIENCE - 1 {
            self.frames = frames + 1;
            return false;
        }
        self.frames = 0;
        true
    }

    /// Returns how many frames ahead were counted, at a question after so many own ticks: none if no tick was made since
    /// the last one.
    fn counted_at(&self, now: u32) -> u8
        ensures { result ≡ counted_at now self.now }
    {
        if now == self.ticked { 0 } else { self.frames }
    }
}

/// Returns whether the player is more than half the window ahead of another.
fn is_ahead<D: Disk>(peer: &Peer<'_, D>, window: u8) -> bool
    ensures ahead { IsTrue result → IsAhead window peer.now }
    ensures level { result ≡ false → ¬ IsAhead window peer.now }
{
    for number in 1..peer.players() + 1 {
        if is_behind(peer, number, window / 2) {
            return true;
        }
    }
    false
}

/// Returns whether the player with this number is another one, whose inputs are not cut, and more than `margin` frames
/// behind.
fn is_behind<D: Disk>(peer: &Peer<'_, D>, number: u8, margin: u8) -> bool
    ensures behind { IsTrue result → IsBehind margin peer.now number }
    ensures level { result ≡ false → ¬ IsBehind margin peer.now number }
{
    let players = peer.players();
    let Some(player) = Player::new(number) else {
        return false;
    };
    if number > players || number == peer.me().number || peer.cut_of(player).is_some() {
        return false;
    }
    peer.now().saturating_sub(peer.count(player)) > u32::from(margin)
}
