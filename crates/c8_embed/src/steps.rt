//! The rows that an engine runs its own machine on.
ghost use Rattle.std.specs.Prelude.{◌≡◌, ◌≤◌, ◌<◌, ◌+◌, ◌++◌, ◌∷◌, [], IfOk, take, length, vec_len, vec_capacity};
ghost use Rattle.c8_embed.specs.Steps.{IsTrueTo, IsFirstChange, IsStepped};
ghost use Rattle.c8_peer.specs.Peer.{known_by};

use c8_disk::Disk;
use c8_game::Row;
use c8_peer::Peer;
use std::alloc::{AllocError, Global};
use std::marker::Model;

/// Which rows a step gives: `count` of them, from this frame on.
#[derive(Clone, Copy, Debug, PartialEq, Eq)]
pub struct Stepped {
    pub from: u32,
    pub count: u32,
}

/// The rows that an engine was given. Once made, it takes no more memory.
#[derive(Drop)]
pub struct Steps {
    given: Vec<Row>,
    /// How many of the rows were confirmed when they were given.
    settled: u32,
    /// How many rows have reserved memory.
    room: u32,
}

impl Model for Steps {
    ghost use Rattle.std.specs.Prelude.{◌≤◌, ◌<◌, ◌^◌, vec_len, vec_capacity};
    ghost use Rattle.c8_embed.specs.Steps.{StepsValue};

    ghost Value = { StepsValue };

    ghost view = { λ s. record { given = s.given.items; settled = s.settled; room = s.room } };

    ghost invariant = { λ s. (vec_len s.given ≤ s.room) × (s.room ≤ vec_capacity s.given) × (s.room < 2 ^ 32) };
}

impl Steps {
    /// Reserves memory for this many rows. None is given yet.
    pub fn new(alloc: Global, room: u32) -> Result<Steps, AllocError>
        ensures { IfOk result (λ steps. steps ≡ record { given = []; settled = 0; room = room }) }
    {
        Ok(Steps {
            given: Vec::with_capacity(alloc, room as usize)?,
            settled: 0,
            room,
        })
    }

    /// Returns the first frame whose best row differs from the given one. If there is none, it returns the lesser of
    /// the peer's tick and the number of given rows.
    fn first_change<D: Disk>(&self, peer: &Peer<'_, D>) -> u32
        requires { IsTrueTo (known_by peer.now) self.now }
        ensures { IsFirstChange (known_by peer.now) self.now.given result }
    {
        let end = peer.now().min(self.given.len() as u32);
        for frame in self.settled..end {
            if !self.given[frame as usize].is_same(&peer.best_row(frame)) {
                return frame;
            }
        }
        end
    }

    /// Gives the best rows from the first change on, at most `most`; the next step gives the rest. It checks only the
    /// frames that were not confirmed in the last step.
    pub fn step<D: Disk>(&mut self, peer: &Peer<'_, D>, most: u32) -> Stepped
        requires true_to { IsTrueTo (known_by peer.now) self.old }
        requires room { (known_by peer.now).ticks ≤ self.old.room }
        ensures stepped { IsStepped (known_by peer.now) most self.old.given self.new.given
            result.from result.count }
        ensures few { result.count ≤ most }
        ensures counted { result.from + result.count ≡ length self.new.given }
        ensures true_to { IsTrueTo (known_by peer.now) self.new }
        ensures room { self.new.room ≡ self.old.room }
    {
        let from = self.first_change(peer);
        let count = most.min(peer.now() - from);
        self.given.truncate(from as usize);
        for frame in from..from + count {
            give(&mut self.given, peer.best_row(frame));
        }
        self.settled = peer.confirmed().min(from + count);
        Stepped { from, count }
    }

    /// Takes back the last `depth` rows, except those that were confirmed when they were given.
    pub fn take_back(&mut self, depth: u32)
        ensures given { self.new.given ≡ take (length self.new.given) self.old.given }
        ensures settled { self.new.settled ≡ self.old.settled }
        ensures room { self.new.room ≡ self.old.room }
        ensures kept { self.old.settled ≤ length self.old.given
            → self.old.settled ≤ length self.new.given }
    {
        let left = (self.given.len() as u32).saturating_sub(depth);
        self.given.truncate(left.max(self.settled) as usize);
    }

    /// Lends all rows that were given.
    pub fn given(&self) -> &[Row]
        ensures { result.now ≡ self.now.given }
    {
        &self.given
    }
}

/// Adds a row, in reserved room.
fn give(given: &mut Vec<Row>, row: Row)
    requires { vec_len given.old < vec_capacity given.old }
    ensures items { given.new.items ≡ given.old.items ++ row ∷ [] }
    ensures capacity { vec_capacity given.old ≤ vec_capacity given.new }
{
    let _given = given.push(row);
}
