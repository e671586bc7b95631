//! Whether a player runs ahead of the others.

ghost use Rattle.std.specs.Prelude.{◌≡◌, ℕ, ◌+◌, ◌<◌, ◌≤◌, ◌↔◌, IsTrue, false, IfSome};
ghost use Rattle.c8_known.specs.Known.{count_in};
ghost use Rattle.c8_peer.specs.Peer.{known_by};
ghost use Rattle.c8_play.specs.Lead.{IsOther, IsHindmost, IsAhead, window_of, patience_of, frames_of};
ghost use Rattle.c8_play.specs.checked.Hindmost.{FoundBelow};

use c8_disk::Disk;
use c8_game::Player;
use c8_peer::Peer;

/// Counts the consecutive frames in which a player was more than half the window ahead of another player's newest
/// input.
///
/// Each player has its own clock. The player with the fastest clock has all the rollbacks, so it waits: it leaves out
/// one tick a second while it is ahead.
#[derive(Clone, Copy, Debug, PartialEq, Eq)]
pub struct Lead {
    window: u8,
    /// In a row of this many frames ahead, the last one's tick is left out.
    patience: u8,
    frames: u8,
}

impl Lead {
    /// Starts the count for a game with this window, at `rate` frames a second.
    pub fn new(window: u8, rate: u8) -> Lead
        ensures window { window_of result ≡ window }
        ensures patience { patience_of result ≡ rate }
        ensures frames { frames_of result ≡ 0 }
    {
        Lead {
            window,
            patience: rate,
            frames: 0,
        }
    }

    /// Counts this frame, and returns whether its tick is left out: the player is ahead now, and was ahead in all
    /// frames of the last second. The count restarts when a tick is left out, and when the player is not ahead.
    pub fn leaves_out<D: Disk>(&mut self, peer: &Peer<'_, D>) -> bool
        ensures window { window_of self.new ≡ window_of self.old }
        ensures patience { patience_of self.new ≡ patience_of self.old }
        ensures out { IsTrue result
            ↔ (IsAhead (window_of self.old) peer.now
            × (patience_of self.old ≤ frames_of self.old + 1)) }
        ensures anew { IsTrue result → frames_of self.new ≡ 0 }
        ensures behind { ¬ IsAhead (window_of self.old) peer.now → frames_of self.new ≡ 0 }
        ensures counted { IsAhead (window_of self.old) peer.now → result ≡ false
            → frames_of self.new ≡ frames_of self.old + 1 }
    {
        if !self.is_ahead(peer) {
            self.frames = 0;
            return false;
        }
        if self.frames < self.patience.saturating_sub(1) {
            self.frames += 1;
            return false;
        }
        self.frames = 0;
        true
    }

    /// Restarts the count after a refused tick: a player that has just waited for the others does not wait again.
    pub fn has_waited(&mut self)
        ensures window { window_of self.new ≡ window_of self.old }
        ensures patience { patience_of self.new ≡ patience_of self.old }
        ensures frames { frames_of self.new ≡ 0 }
    {
        self.frames = 0;
    }

    /// Returns whether the player is more than half the window ahead of another.
    fn is_ahead<D: Disk>(&self, peer: &Peer<'_, D>) -> bool
        ensures { IsTrue result ↔ IsAhead (window_of self.now) peer.now }
    {
        match hindmost(peer) {
            Some(player) => {
                peer.now().saturating_sub(peer.count(player)) > u32::from(self.window / 2)
            }
            None => false,
        }
    }
}

/// Returns the other player with the fewest known inputs, among those whose inputs are not cut; `None` if all others
/// are cut.
pub(crate) fn hindmost<D: Disk>(peer: &Peer<'_, D>) -> Option<Player>
    ensures some { IfSome result (λ player. IsHindmost peer.now player.number) }
    ensures none { result ≡ None → (player : ℕ) → ¬ IsOther peer.now player }
{
    let mut found: Option<Player> = None;
    for number in 1..peer.players() + 1 {
        found = hindmost_with(peer, number, found);
    }
    found
}

/// Returns the hindmost of the players found so far and the one with this number.
fn hindmost_with<D: Disk>(peer: &Peer<'_, D>, number: u8, found: Option<Player>) -> Option<Player>
    ensures { FoundBelow peer.now number found → FoundBelow peer.now (number + 1) result }
{
    match other(peer, number) {
        Some(player) => {
            if is_fewer(peer, player, found) {
                Some(player)
            } else {
                found
            }
        }
        None => found,
    }
}

/// Returns the other player with this number, unless its inputs are cut.
fn other<D: Disk>(peer: &Peer<'_, D>, number: u8) -> Option<Player>
    ensures some { IfSome result (λ player. IsOther peer.now player.number) }
    ensures same { IfSome result (λ player. player.number ≡ number) }
    ensures none { result ≡ None → ¬ IsOther peer.now number }
{
    let players = peer.players();
    let player = Player::new(number)?;
    if number <= players && number != peer.me().number && peer.cut_of(player).is_none() {
        Some(player)
    } else {
        None
    }
}

/// Returns whether fewer inputs are known of a player than of the one found so far. True if none was found.
fn is_fewer<D: Disk>(peer: &Peer<'_, D>, player: Player, found: Option<Player>) -> bool
    ensures fewer { IsTrue result → IfSome found (λ it. count_in (known_by peer.now) player.number
        < count_in (known_by peer.now) it.number) }
    ensures first { found ≡ None → IsTrue result }
    ensures most { result ≡ false → IfSome found (λ it. count_in (known_by peer.now) it.number
        ≤ count_in (known_by peer.now) player.number) }
{
    match found {
        Some(it) => peer.count(player) < peer.count(it),
        None => true,
    }
}
