//! The end of a match in threads: its log, and its peers.
ghost use Rattle.std.specs.Prelude.{◌≡◌, ◌≤◌, ◌<◌, ◌+◌, ℕ, true, length, Some, IfOk};
ghost use Rattle.std.specs.List.{slice_get};
ghost use Rattle.c8_world.specs.Events.{act_of};
ghost use Rattle.c8_disk.specs.declared.mem_disk.MemDisk.{MemDisk};
ghost use Rattle.c8_peer.specs.Peer.{PeerValue};
ghost use Rattle.c8_rig.specs.Log.{part_of};
ghost use Rattle.c8_rig.specs.Tokens.{EntryValue};
ghost use Rattle.c8_rig.specs.Gathered.{AreAll, HaveAgreedOrNot, IsGathering};

use crate::ether::{Entry, Ether, Room};
use crate::note::Note;
use c8_disk::MemDisk;
use c8_peer::Peer;
use c8_world::{Standing, all_agree};
use std::alloc::{AllocError, Global};

/// The log, the peers and the verdict of a match.
#[derive(Drop)]
pub enum Gathering<'g> {
    /// Each entry's notes are its player's part of the log. The peers are in order of number. `agree` says whether any
    /// two players that were not dropped have the same rows up to the lower of their confirmed counts.
    Gathered {
        log: Vec<Note>,
        peers: Vec<Peer<'g, MemDisk>>,
        agree: bool,
    },
    /// An entry's notes are not its player's part of the log. Proved: this never happens.
    Torn,
}

/// Joins the entries of an ether and the peers of all its players, both in order, player 1's first. The error is that
/// memory ran out.
pub fn gather<'g, B: Room>(
    alloc: Global,
    ether: Ether<B>,
    entries: Vec<Entry>,
    peers: Vec<Peer<'g, MemDisk>>,
) -> Result<Gathering<'g>, AllocError>
    requires entries { AreAll B.ether B.players entries.items }
    requires peers { length peers.items ≡ B.players }
    requires few { B.players ≤ 4 }
    requires places { (i : ℕ) (q : PeerValue MemDisk) → slice_get peers.items i ≡ Some q
        → q.me ≡ i + 1 }
    ensures { IfOk result (λ gathering.
        IsGathering B.players entries.items peers.entry.items gathering) }
{
    let Some(log) = ether.into_log(entries) else {
        return Ok(Gathering::Torn);
    };
    let agree = agree(alloc, &peers)?;
    Ok(Gathering::Gathered { log, peers, agree })
}

/// Returns whether the peers of all players agree, player 1's first.
fn agree(alloc: Global, peers: &[Peer<'_, MemDisk>]) -> Result<bool, AllocError>
    requires { length peers.now ≤ 4 }
    ensures { IfOk result (λ agree. HaveAgreedOrNot peers.now agree) }
{
    let mut standings = Vec::with_capacity(alloc, peers.len())?;
    for peer in peers {
        standings.push_reserved(Standing::Held(peer));
    }
    Ok(all_agree(&standings))
}
