//! Counts of a peer's threads, for other threads to read.
use c8_disk::Disk;
use c8_game::{MOST_PLAYERS, Player};
use c8_session::Session;
use c8_transport::{Losses, Relaying};
use std::sync::atomic::{AtomicBool, AtomicU64, Ordering};

/// The number of a relay that has been silent for less than a second.
const SILENT: u64 = 4;

/// How far a peer is, except for its confirmed frames, which its board shows.
#[derive(Clone, Copy, Debug, PartialEq, Eq)]
pub struct Standing {
    /// How many frames it has ticked.
    pub ticked: u64,
    /// How often it rolled back since it began, and the most frames that one rollback simulated again since the last
    /// `take`.
    pub rollbacks: u64,
    pub longest: u64,
    /// In how many turns each player was heard, by place.
    pub heard: [u64; MOST_PLAYERS],
    /// Whether another player's machine differed.
    pub is_alarmed: bool,
    /// How many packets were lost, because an inlet was full or the network reported a temporary error.
    pub lost: u64,
    /// How many packets came from an address of no player or watcher of the match.
    pub foreign: u64,
    /// How many packets were not sealed for this player with the key of the match.
    pub unsealed: u64,
    /// How many sealed packets had come before.
    pub repeated: u64,
    /// What its wire hears of a relay.
    pub relaying: Relaying,
}

/// Counters that the threads of a peer share. A reading during a turn may mix values of that turn and of the one
/// before; nothing depends on them.
#[derive(Drop)]
pub struct Counters {
    ticked: AtomicU64,
    rollbacks: AtomicU64,
    longest: AtomicU64,
    heard: [AtomicU64; MOST_PLAYERS],
    is_alarmed: AtomicBool,
    /// Packets lost by the outbox, by the inbox and by the wire.
    lost_out: AtomicU64,
    lost_in: AtomicU64,
    lost_there: AtomicU64,
    foreign: AtomicU64,
    unsealed: AtomicU64,
    repeated: AtomicU64,
    /// What the wire hears of a relay, as [`code_of`] has it.
    relaying: AtomicU64,
}

impl Counters {
    /// Creates counters at zero.
    pub fn new() -> Counters {
        Counters {
            ticked: AtomicU64::new(0),
            rollbacks: AtomicU64::new(0),
            longest: AtomicU64::new(0),
            heard: [
                AtomicU64::new(0),
                AtomicU64::new(0),
                AtomicU64::new(0),
                AtomicU64::new(0),
            ],
            is_alarmed: AtomicBool::new(false),
            lost_out: AtomicU64::new(0),
            lost_in: AtomicU64::new(0),
            lost_there: AtomicU64::new(0),
            foreign: AtomicU64::new(0),
            unsealed: AtomicU64::new(0),
            repeated: AtomicU64::new(0),
            relaying: AtomicU64::new(code_of(Relaying::Direct)),
        }
    }

    /// Notes the last turn of a session, and how many packets its wire has lost so far.
    pub fn note<D: Disk>(&self, session: &Session<'_, D>, lost: u64) {
        let peer = session.peer();
        let rollbacks = session.rollbacks();
        self.ticked.store(u64::from(peer.now()), Ordering::SeqCst);
        self.is_alarmed.store(peer.alarm(), Ordering::SeqCst);
        self.lost_out.store(lost, Ordering::SeqCst);
        self.rollbacks
            .fetch_add(u64::from(rollbacks.count), Ordering::SeqCst);
        if self.longest.load(Ordering::SeqCst) < u64::from(rollbacks.longest) {
            self.longest
                .store(u64::from(rollbacks.longest), Ordering::SeqCst);
        }
        for number in 1..peer.players() + 1 {
            if let Some(player) = Player::new(number)
                && session.silent(player) == 0
            {
                self.heard[player.place()].fetch_add(1, Ordering::SeqCst);
            }
        }
    }

    /// Counts packets for which the inbox had no place.
    pub fn lose(&self, packets: u64) {
        self.lost_in.fetch_add(packets, Ordering::SeqCst);
    }

    /// Notes how many packets the wire has lost and rejected so far.
    pub fn note_wire(&self, losses: Losses) {
        self.lost_there.store(losses.lost, Ordering::SeqCst);
        self.foreign.store(losses.foreign, Ordering::SeqCst);
        self.unsealed.store(losses.unsealed, Ordering::SeqCst);
        self.repeated.store(losses.repeated, Ordering::SeqCst);
    }

    /// Notes what the wire hears of a relay.
    pub fn note_relay(&self, relaying: Relaying) {
        self.relaying.store(code_of(relaying), Ordering::SeqCst);
    }

    /// Returns how far the peer is, and resets the longest rollback to 0.
    pub fn take(&self) -> Standing {
        let [one, two, three, four] = &self.heard;
        let lost_out = self.lost_out.load(Ordering::SeqCst);
        let lost_there = self.lost_there.load(Ordering::SeqCst);
        Standing {
            ticked: self.ticked.load(Ordering::SeqCst),
            rollbacks: self.rollbacks.load(Ordering::SeqCst),
            longest: self.longest.swap(0, Ordering::SeqCst),
            heard: [
                one.load(Ordering::SeqCst),
                two.load(Ordering::SeqCst),
                three.load(Ordering::SeqCst),
                four.load(Ordering::SeqCst),
            ],
            is_alarmed: self.is_alarmed.load(Ordering::SeqCst),
            lost: lost_out
                .saturating_add(self.lost_in.load(Ordering::SeqCst))
                .saturating_add(lost_there),
            foreign: self.foreign.load(Ordering::SeqCst),
            unsealed: self.unsealed.load(Ordering::SeqCst),
            repeated: self.repeated.load(Ordering::SeqCst),
            relaying: relaying_of(self.relaying.load(Ordering::SeqCst)),
        }
    }
}

/// What a wire hears of a relay as one number: seconds of silence come after the other four.
fn code_of(relaying: Relaying) -> u64 {
    match relaying {
        Relaying::Direct => 0,
        Relaying::Joined => 1,
        Relaying::Taken => 2,
        Relaying::Full => 3,
        Relaying::Silent(seconds) => seconds.saturating_add(SILENT),
    }
}

/// What [`code_of`] makes this number of.
fn relaying_of(code: u64) -> Relaying {
    match code {
        0 => Relaying::Direct,
        1 => Relaying::Joined,
        2 => Relaying::Taken,
        3 => Relaying::Full,
        _ => Relaying::Silent(code.saturating_sub(SILENT)),
    }
}

impl Default for Counters {
    fn default() -> Counters {
        Counters::new()
    }
}
