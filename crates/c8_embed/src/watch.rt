//! A watcher inside an engine: it takes the rows that player 1 shows, and gives each of them to the engine once.
ghost use Rattle.std.specs.Prelude.{◌≡◌, ◌≤◌, ◌+◌, IfOk, IfSome, MatchOption, length};
ghost use Rattle.c8_embed.specs.Watch.{IsNewWatch, HasWatchSealing, HasShown, shown_of, HasGiven, OwesSeen, HasSeen, HasNoSeen, has_all};

use crate::endpoint::{Sender, open, wrap};
use crate::steps::Stepped;
use c8_game::Game;
use c8_spectator::{NotTaken as Untaken, Spectator, Taken};
use c8_transport::{Counters, LONGEST_SEALED, NotTaken, Seal, SealKeys, Sealer, Secrets};
use c8_wire::{LONGEST_DATAGRAM, Seat, Watcher};
use std::alloc::{AllocError, Global};

/// The session of a watcher. With the watchers' secret it sends and takes sealed packets. It has no journal: one that starts
/// again is shown all rows again. Only `open` takes memory, and that of the game is never freed.
#[derive(Drop)]
pub struct WatchEndpoint {
    pub spectator: Spectator<'static>,
    /// The number of the match's session, on which keys depend.
    pub number: u64,
    /// Seals and opens packets, if the match has a secret.
    pub sealer: Option<Sealer>,
    /// The sender of the last packet, if it was sealed and taken.
    sender: Option<Sender>,
    /// When the watcher began, in milliseconds since 1970: its packets are numbered from there on.
    begun: u64,
    /// How many rows the engine was given.
    given: u32,
    /// Whether the SEEN of this turn is left to send.
    owes_seen: bool,
}

/// Why received bytes gave a watcher nothing.
#[derive(Clone, Copy, Debug, PartialEq, Eq)]
pub enum Unshown {
    /// They are no sealed packet for this watcher, or one that came before.
    NotTaken(NotTaken),
    /// The watcher refused the datagram.
    Refused(Untaken),
}

impl WatchEndpoint {
    /// Opens a watcher's session, without a secret. It fails only if memory is refused.
    pub fn open(
        alloc: Global,
        game: &'static Game,
        room: u64,
        seat: Watcher,
        begun: u64,
    ) -> Result<WatchEndpoint, AllocError>
        ensures { IfOk result (λ watch. IsNewWatch game.entry.now room seat.number begun watch) }
    {
        Ok(WatchEndpoint {
            spectator: Spectator::open(alloc, game, room, seat)?,
            number: game.session(room),
            sealer: None,
            sender: None,
            begun,
            given: 0,
            owes_seen: false,
        })
    }

    /// From now on this watcher sends and takes sealed packets, with the keys of these secrets and the counters of the time at
    /// which it began. A second time it changes nothing and returns false.
    pub fn seal_with(&mut self, secrets: &Secrets) -> bool
        ensures sealing { HasWatchSealing self.old secrets.now result self.new }
    {
        if self.sealer.is_some() {
            return false;
        }
        let seal = Seal {
            keys: SealKeys::of(secrets, self.number),
            seat: Seat::from(self.spectator.seat()),
            session: self.number,
        };
        let counters = Counters::of_time(self.begun);
        self.sealer = Some(Sealer::new(seal, counters));
        true
    }

    /// Processes received bytes: without a secret a datagram, as [`Spectator::hear`] does; with one a sealed packet, whose
    /// datagram is heard if it is for this watcher and new.
    pub fn deliver(&mut self, bytes: &[u8]) -> Result<Taken, Unshown>
        ensures shown { HasShown self.old bytes.now result self.new }
    {
        self.sender = None;
        match open(&mut self.sealer, bytes) {
            Ok((datagram, sender)) => {
                self.sender = sender;
                shown(self.spectator.hear(datagram))
            }
            Err(why) => Err(Unshown::NotTaken(why)),
        }
    }

    /// Returns who sealed the packet that the last `deliver` took; `None` if it took none, or there is no secret.
    pub fn sender(&self) -> Option<Sender>
        ensures { result ≡ self.now.sender }
    {
        self.sender
    }

    /// Begins a turn: the watcher has to tell player 1 how many rows it has.
    pub fn turn(&mut self)
        ensures { OwesSeen self.old self.new }
    {
        self.owes_seen = true;
    }

    /// Writes this turn's packet to player 1 to the front of `out`, and returns its length, at most 198 bytes. `None` if it
    /// was written before, or cannot be sealed.
    pub fn next_packet(&mut self, out: &mut [u8; LONGEST_SEALED]) -> Option<usize>
        ensures next { MatchOption result (HasNoSeen self.old self.new)
            (λ size. HasSeen self.old size out.new self.new) }
        ensures fits { IfSome result (λ size. size ≤ LONGEST_SEALED) }
    {
        if !self.owes_seen {
            return None;
        }
        self.owes_seen = false;
        let mut datagram = [0; LONGEST_DATAGRAM];
        let size = self.spectator.seen(&mut datagram);
        wrap(&mut self.sealer, &datagram[..size], out)
    }

    /// Gives the rows that the engine was not given, at most `most`; the next step gives the rest. `spectator.rows()` lends
    /// them. No row is given twice, since none changes.
    pub fn step(&mut self, most: u32) -> Stepped
        ensures given { HasGiven self.old most result.from result.count self.new }
        ensures next { self.old.given ≤ length self.old.spectator.rows → result.from ≡ self.old.given }
        ensures within { result.from + result.count ≤ length self.new.spectator.rows }
        ensures few { result.count ≤ most }
    {
        let taken = self.spectator.count();
        let from = self.given.min(taken);
        let count = most.min(taken - from);
        self.given = from + count;
        Stepped { from, count }
    }

    /// Returns whether the watcher has every row of the game.
    pub fn is_over(&self) -> bool
        ensures { result ≡ has_all self.now }
    {
        self.spectator.count() >= self.spectator.game().frames()
    }
}

/// The answer of a watcher's endpoint, from that of its spectator.
fn shown(answer: Result<Taken, Untaken>) -> Result<Taken, Unshown>
    ensures { result ≡ shown_of answer }
{
    match answer {
        Ok(taken) => Ok(taken),
        Err(why) => Err(Unshown::Refused(why)),
    }
}
