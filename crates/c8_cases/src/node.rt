//! One player's peer, or its disk.
use c8_disk::{Arm, Disk, MemDisk};
use c8_game::{Game, Player};
use c8_part_cases::{Answers, unreadable};
use c8_peer::Peer;
use std::alloc::Global;
use std::io;

/// How many bytes and calls an empty disk has room for, unless a command says otherwise.
const CAPACITY: u32 = 20000;

const CALLS: u32 = 1000;

/// A player's open peer, or its disk.
#[derive(Drop)]
pub(crate) struct Node<'g> {
    pub(crate) peer: Option<Peer<'g, MemDisk>>,
    pub(crate) disk: Option<MemDisk>,
}

impl<'g> Node<'g> {
    /// A node without peer and disk.
    pub(crate) fn empty() -> Node<'g> {
        Node {
            peer: None,
            disk: None,
        }
    }

    /// Opens the peer on its disk, an empty one if it has none; an open peer is closed first.
    pub(crate) fn open(
        &mut self,
        alloc: Global,
        game: &'g Game,
        (me, room): (Player, u64),
        out: &mut Answers,
    ) -> io::Result<()> {
        self.close();
        let disk = match self.disk.take() {
            Some(disk) => disk,
            None => MemDisk::new(alloc, CAPACITY, CALLS)?,
        };
        match Peer::open(alloc, disk, game, me, room) {
            Ok(peer) => {
                let epoch = peer.epoch();
                self.peer = Some(peer);
                out.tell(format_args!("epoch {epoch}"))
            }
            Err((error, disk)) => {
                self.disk = Some(disk);
                out.refuse("open", error.number(), error.name(), error)
            }
        }
    }

    /// Closes the peer if there is one.
    pub(crate) fn close(&mut self) {
        if let Some(peer) = self.peer.take() {
            self.disk = Some(peer.close());
        }
    }

    /// Closes the peer. Its disk then holds an image that a crash may leave.
    pub(crate) fn crash(&mut self, pick: u64) {
        self.close();
        if let Some(disk) = self.disk.take() {
            self.disk = Some(disk.crash(pick));
        }
    }

    /// Replaces everything by a disk.
    pub(crate) fn put(&mut self, disk: MemDisk) {
        self.peer = None;
        self.disk = Some(disk);
    }

    pub(crate) fn arm(&mut self, arm: Arm) {
        if let Some(peer) = &mut self.peer {
            peer.arm(arm);
        } else if let Some(disk) = &mut self.disk {
            disk.arm(arm);
        }
    }

    /// What the disk holds.
    pub(crate) fn image(&self) -> &[u8] {
        if let Some(peer) = &self.peer {
            return peer.disk().bytes();
        }
        match &self.disk {
            Some(disk) => disk.bytes(),
            None => &[],
        }
    }

    /// Closes the peer, and lends its disk.
    pub(crate) fn bare(&mut self) -> io::Result<&mut MemDisk> {
        self.close();
        match &mut self.disk {
            Some(disk) => Ok(disk),
            None => Err(unreadable()),
        }
    }
}
