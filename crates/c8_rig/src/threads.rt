//! A match whose players are threads.
ghost use Rattle.std.specs.Prelude.{◌≡◌, ◌<◌, ◌≤◌, ℕ, [], length, map, Some, IfOk, IfSome};
ghost use Rattle.std.specs.List.{All};
ghost use Rattle.c8_rig.specs.Tokens.{first_entries};
ghost use Rattle.c8_rig.specs.Rigged.{HasWorked, IsDiskFor, IsPlayedAt, IsRigged};

use crate::ether::{Entry, Ether, Room, Unnamed};
use crate::gathering::{Gathering, gather};
use crate::laws::{a_log_is_a_world, moments_of_a_log_agree};
use crate::watch::Watch;
use crate::worker::rig_worker;
use c8_disk::MemDisk;
use c8_game::Game;
use c8_peer::Peer;
use c8_world::laws::what_disks_give_agrees;
use std::alloc::{AllocError, Global};
use std::marker::Brand;
use std::sync::Wait;
use std::thread::{Threads, map_vec};

/// The arguments of a thread.
#[derive(Drop)]
struct Job {
    entry: Entry,
    disk: MemDisk,
}

/// What a thread returns.
#[derive(Drop)]
struct Played<'g> {
    entry: Entry,
    peer: Option<Peer<'g, MemDisk>>,
}

/// Plays a match in room 0. Each player has a thread of its own and an empty disk, and all share one ether. Each makes
/// `turns` turns, which a generator draws from the seed and the player's number, unless the gate ends it earlier or memory
/// runs out for the note of a turn, which is no error. If the system starts no thread, the players play one after another.
/// The error is that memory ran out for anything else, or that an opening was refused.
pub fn rig<'g, R: Threads + Wait + Sync, G: Watch + Sync>(
    rt: &R,
    alloc: Global,
    game: &'g Game,
    seed: u64,
    turns: u16,
    gate: &G,
) -> Result<Gathering<'g>, AllocError>
    ensures { IfOk result (λ gathering. IsRigged game.entry.now turns gathering) }
{
    game.in_range();
    let (ether, entries) = Unnamed::open(alloc, game)?;
    rigged::<Brand, R, G>(rt, alloc, game, ether, entries, seed, turns, gate)
}

/// The part of `rig` that needs the proof: the ether has a name.
fn rigged<'g, B: Room + Send + Sync, R: Threads + Wait + Sync, G: Watch + Sync>(
    rt: &R,
    alloc: Global,
    game: &'g Game,
    ether: Unnamed,
    entries: Vec<Entry>,
    seed: u64,
    turns: u16,
    gate: &G,
) -> Result<Gathering<'g>, AllocError>
    requires ether { ether.ether ≡ B.ether }
    requires players { ether.players ≡ B.players }
    requires few { B.players ≤ 4 }
    requires game { game.now.players ≡ B.players }
    requires entries { entries.items ≡ first_entries B.ether B.players }
    ensures { IfOk result (λ gathering. IsRigged game.entry.now turns gathering) }
{
    let ether = ether.named::<B>(alloc);
    let jobs = jobs_of(alloc, entries, turns)?;
    let work = |job: Job| -> Played<'_>
        requires { (job.entry.ether ≡ B.ether) × (job.entry.notes ≡ []) × IsDiskFor turns job.disk }
        ensures { HasWorked game.entry.now job.disk job.entry result.entry result.peer }
    { work_at(rt, alloc, &ether, game, job, seed, turns, gate) };
    let played = map_vec(rt, jobs, &work)?;
    let Some((entries, peers)) = parted(alloc, played)? else {
        return Err(AllocError);
    };
    together(alloc, game, turns, ether, entries, peers)
}

/// What each thread begins with: its entry, and a new disk for `turns` turns.
fn jobs_of(alloc: Global, entries: Vec<Entry>, turns: u16) -> Result<Vec<Job>, AllocError>
    ensures entries { IfOk result (λ jobs. map (λ job. job.entry) jobs.items ≡ entries.items) }
    ensures disks { IfOk result (λ jobs. All (λ job. IsDiskFor turns job.disk) jobs.items) }
{
    let many = u32::from(turns);
    let mut jobs = Vec::with_capacity(alloc, entries.len())?;
    for entry in entries {
        let disk = MemDisk::new(alloc, 144 * (many + 2) + 1, 4 * many + 16)?;
        jobs.push(Job { entry, disk })?;
    }
    Ok(jobs)
}

/// Runs one thread.
fn work_at<'g, B: Room, R: Wait, G: Watch>(
    rt: &R,
    alloc: Global,
    ether: &Ether<B>,
    game: &'g Game,
    job: Job,
    seed: u64,
    turns: u16,
    gate: &G,
) -> Played<'g>
    requires ether { job.entry.ether ≡ B.ether }
    requires unused { job.entry.notes ≡ [] }
    requires disk { IsDiskFor turns job.disk }
    ensures { HasWorked game.entry.now job.disk job.entry result.entry result.peer }
{
    let Job { entry, disk } = job;
    let (entry, peer) = rig_worker(
        rt,
        alloc,
        ether,
        entry,
        game,
        disk,
        seed,
        u64::from(turns),
        gate,
    );
    Played { entry, peer }
}

/// Returns the entries and the peers, or `None` if a thread returned no peer.
fn parted<'g>(
    alloc: Global,
    played: Vec<Played<'g>>,
) -> Result<Option<(Vec<Entry>, Vec<Peer<'g, MemDisk>>)>, AllocError>
    ensures entries { IfOk result (λ found. IfSome found (λ r.
        r.0.items ≡ map (λ one. one.entry) played.entry.items)) }
    ensures peers { IfOk result (λ found. IfSome found (λ r.
        map Some r.1.items ≡ map (λ one. one.peer) played.entry.items)) }
{
    let mut entries = Vec::with_capacity(alloc, played.len())?;
    let mut peers = Vec::with_capacity(alloc, played.len())?;
    for one in played {
        let Played { entry, peer } = one;
        let Some(peer) = peer else {
            return Ok(None);
        };
        entries.push(entry)?;
        peers.push(peer)?;
    }
    Ok(Some((entries, peers)))
}

/// Joins what all threads returned.
fn together<'g, B: Room>(
    alloc: Global,
    game: &Game,
    turns: u16,
    ether: Ether<B>,
    entries: Vec<Entry>,
    peers: Vec<Peer<'g, MemDisk>>,
) -> Result<Gathering<'g>, AllocError>
    requires game { game.now.players ≡ B.players }
    requires entries { length entries.items ≡ B.players }
    requires peers { length peers.items ≡ B.players }
    requires played { (i : ℕ) → i < B.players
        → IsPlayedAt game.now turns B.ether entries.items peers.items i }
    ensures { IfOk result (λ gathering. IsRigged game.now turns gathering) }
{
    a_log_is_a_world();
    moments_of_a_log_agree();
    what_disks_give_agrees();
    game.in_range();
    gather(alloc, ether, entries, peers)
}
