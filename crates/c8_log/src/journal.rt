//! The journal: a log whose contract speaks of a list of bodies.
ghost use Rattle.std.specs.Prelude.{◌≡◌, ◌<◌, ◌≤◌, ◌+◌, ◌*◌, ◌++◌, [], ◌∷◌, ◌↔◌, ◌==◌, true, false, length, OnOk, OnErr, IsErrOf};
ghost use Rattle.c8_disk.specs.Disk.{AddsNone};
ghost use Rattle.c8_disk.specs.Runs.{LeavesOnly, IsSameDisk};
ghost use Rattle.c8_disk.specs.Asks.{Asks};
ghost use Rattle.c8_log.specs.Asked.{AppendWithin};
ghost use Rattle.c8_log.specs.Slots.{kept, slot_length};

use crate::slot::BODY_LENGTH;
use crate::{Log, LogError};
use c8_disk::{Arm, Disk, DiskError, GhostList};
use std::fmt;
use std::marker::Model;

/// A [`Log`] whose contract speaks only of the list of bodies that it keeps. Disk failures and crashes
/// can come at any moment. The next opening finds all bodies for which `append` returned `Ok`, and at
/// most one more after them: the refused one.
#[derive(Drop)]
pub struct Journal<D: Disk> {
    log: Log<D>,
    /// The refused body, only for clauses.
    refused: GhostList<[u8; BODY_LENGTH]>,
}

impl<D: Disk> Model for Journal<D> {
    ghost use Rattle.c8_log.specs.Journal.{JournalValue, journal_over, IsJournal};

    ghost Value = { JournalValue D };

    ghost view = { λ journal. journal_over D.Disk journal.log journal.refused.items };

    ghost invariant = { λ journal. IsJournal D.Disk
        (journal_over D.Disk journal.log journal.refused.items) journal.log.count };
}

/// Shows how many bodies it keeps, and whether it is down.
impl<D: Disk> fmt::Debug for Journal<D> {
    fn fmt<W: fmt::Write>(&self, f: &mut fmt::Formatter<W>) -> fmt::Result {
        let count = self.log.len();
        let down = self.log.is_down();
        write!(f, "Journal {{ count: {count}, down: {down} }}")
    }
}

impl<D: Disk> Journal<D> {
    ghost use Rattle.c8_log.specs.Journal.{KeepsBodies, AllKeepBodies};

    /// Wraps a log that is up. The journal keeps the log's bodies. Read them before this call, with
    /// [`Log::read_block`]: a journal has no reads.
    pub fn over(log: Log<D>) -> Journal<D>
        requires { log.down ≡ false }
        ensures { result ≡ record {
          disk = log.disk;
          bodies = kept (D.seen log.disk);
          pending = None;
          is_down = false;
        } }
    {
        // For the proof: a log that is up counts what it keeps.
        let _count = log.len();
        Journal {
            log,
            refused: GhostList::new(),
        }
    }

    /// Returns how many bodies it keeps.
    pub fn len(&self) -> u32
        ensures { result ≡ length self.now.bodies }
    {
        self.log.len()
    }

    /// Returns whether it keeps no bodies.
    pub fn is_empty(&self) -> bool
        ensures { result ≡ (length self.now.bodies == 0) }
    {
        self.log.is_empty()
    }

    /// Returns whether an `append` was refused. If so, close the journal and open its disk again: it
    /// takes no more bodies.
    pub fn is_down(&self) -> bool
        ensures value { result ≡ self.now.is_down }

        // What holds for every journal: what a crash now leaves, and that no body is pending while it is
        // up.
        ensures keeps { AllKeepBodies self.now.bodies self.now.pending (D.may_leave self.now.disk) }
        ensures up { self.now.is_down ≡ false → self.now.pending ≡ None }
        ensures still { LeavesOnly D.Disk self.now.disk self.now.disk
            (KeepsBodies self.now.bodies self.now.pending) }
    {
        self.log.is_down()
    }

    /// Appends a body and syncs it. Needs a journal that is up. After `Ok` every crash keeps the body.
    /// After an error the journal is down and the body is pending: after `Failed` the next opening
    /// decides whether it counts; after `Full` nothing was written.
    pub fn append(&mut self, body: &[u8; BODY_LENGTH]) -> Result<(), DiskError>
        requires { self.old.is_down ≡ false }

        ensures ok { OnOk result (self.new ≡ record self.old {
          disk = self.new.disk;
          bodies = self.old.bodies ++ body.now ∷ [];
        }) }
        ensures err { OnErr result (self.new ≡ record self.old {
          disk = self.new.disk;
          pending = Some body.now;
          is_down = true;
        }) }

        // A crash at any moment of the call leaves the earlier bodies, with the new one or without.
        ensures any_moment { LeavesOnly D.Disk self.old.disk self.new.disk
            (KeepsBodies self.old.bodies (Some body.now)) }

        // When each error comes.
        ensures failed { IsErrOf result DiskError.Failed
            → D.failures self.old.disk < D.failures self.new.disk }
        ensures full { IsErrOf result DiskError.Full
            ↔ (D.capacity self.old.disk < slot_length * (length self.old.bodies + 1) + 1) }
        ensures full_leaves { IsErrOf result DiskError.Full → self.new.disk ≡ self.old.disk }

        ensures changes { D.changes self.new.disk ≤ D.changes self.old.disk + 4 }
        ensures same { IsSameDisk D.Disk self.old.disk self.new.disk }

        // Which disk calls it makes, up to the first that is refused.
        ensures asks { Asks D.Disk (AppendWithin (D.capacity self.old.disk)
            (length self.old.bodies) body.now) result self.old.disk self.new.disk }
    {
        let error = match self.log.append(body) {
            Ok(_) => return Ok(()),
            Err(LogError::Failed) => DiskError::Failed,
            Err(LogError::Full) => DiskError::Full,
            Err(LogError::Down) => unreachable!(),
        };
        self.refused = GhostList::new().and(body);
        Err(error)
    }

    /// Arms the disk: chooses which of its calls fail from now on.
    pub fn arm(&mut self, arm: Arm)
        ensures value { self.new ≡ record self.old { disk = self.new.disk } }
        ensures any_moment { LeavesOnly D.Disk self.old.disk self.new.disk
            (KeepsBodies self.old.bodies self.old.pending) }
        ensures adds_no_image { LeavesOnly D.Disk self.old.disk self.new.disk
            (D.may_leave self.old.disk) }
        ensures seen { D.seen self.new.disk ≡ D.seen self.old.disk }
        ensures crash { AddsNone (D.may_leave self.old.disk) (D.may_leave self.new.disk) }
        ensures crash_keeps { AddsNone (D.may_leave self.new.disk) (D.may_leave self.old.disk) }
        ensures failures { D.failures self.new.disk ≡ D.failures self.old.disk }
        ensures changes { D.changes self.new.disk ≡ D.changes self.old.disk }
        ensures capacity { D.capacity self.new.disk ≡ D.capacity self.old.disk }
        ensures arms { D.arms self.new.disk ≡ D.arms self.old.disk ++ arm ∷ [] }
        ensures told { D.told self.old.disk arm self.new.disk }
    {
        self.log.arm(arm);
    }

    /// Returns the disk.
    pub fn disk(&self) -> &D
        ensures { result.now ≡ self.now.disk }
    {
        self.log.disk()
    }

    /// Closes the journal and returns the disk. The next opening decides whether a pending body counts.
    pub fn close(self) -> D
        ensures disk { result ≡ self.disk }

        // What a crash now leaves, and what a read gives.
        ensures keeps { AllKeepBodies self.bodies self.pending (D.may_leave result) }
        ensures seen { KeepsBodies self.bodies self.pending (D.seen result) }
        ensures up { self.is_down ≡ false → self.pending ≡ None }
    {
        self.log.close()
    }
}
