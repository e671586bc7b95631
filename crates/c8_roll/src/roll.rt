//! The roll of a game.
ghost use Rattle.std.specs.Prelude.{◌≡◌, ◌+◌, ◌<◌, ◌≤◌, ℕ, Option, IfOk};
ghost use Rattle.c8_machine.specs.State.{state};
ghost use Rattle.c8_digest.specs.Origin.{origin_of};
ghost use Rattle.c8_known.specs.Confirmed.{confirmed};
ghost use Rattle.c8_roll.specs.Roll.{roll_of, roll_since, IsOnTheWay, GrowsTo};
ghost use Rattle.c8_roll.specs.Rollback.{WasKnown, IsWithinWindow, HasAllRows, LacksRows, KeepsRows, IsOldestChange, IsOldestOrLast, run_from, RunsFromWhatWasKnown};

use crate::buffers::Buffers;
use crate::timeline::Timeline;
use c8_digest::{Checkpoint, Marks};
use c8_game::Game;
use c8_known::Known;
use c8_machine::Machine;
use std::alloc::{AllocError, Global};
use std::fmt;

/// What a player sees of a game, and what is confirmed.
#[derive(Drop)]
pub struct Roll<'g> {
    timeline: Timeline<'g>,
    marks: Marks,
}

/// Prints how many frames are confirmed and how many were run, not the machines.
impl<'g> fmt::Debug for Roll<'g> {
    fn fmt<W: fmt::Write>(&self, f: &mut fmt::Formatter<W>) -> fmt::Result {
        let (confirmed, ticks) = (self.timeline.first(), self.timeline.ticks());
        write!(f, "Roll {{ confirmed: {confirmed}, ticks: {ticks} }}")
    }
}

impl<'g> Roll<'g> {
    ghost use Rattle.c8_roll.specs.Seen.{value_of, rows_run, last_run_of};

    /// Creates the roll of what is known. Runs all frames, and reserves all its memory. Fails only if
    /// memory is refused.
    pub fn open(alloc: Global, game: &'g Game, known: &Known) -> Result<Roll<'g>, AllocError>
        ensures roll { IfOk result (λ roll. value_of roll ≡ roll_of game.entry.now known.now) }
        ensures ticks { IfOk result (λ roll. (value_of roll).ticks ≡ known.now.ticks) }
        ensures kept { IfOk result (λ roll.
            KeepsRows game.entry.now.window known.now (rows_run roll)) }
        ensures ran { IfOk result (λ roll. last_run_of roll ≡ known.now.ticks) }
    {
        Roll::open_at(alloc, game, known, &Checkpoint::start(game))
    }

    /// Creates the roll of what is known, and runs it from a checkpoint on. The result is that of `open`
    /// if the checkpoint is on the way (`IsOnTheWay`): its machine and marks are those of the run of the
    /// confirmed rows. Reserves all its memory.
    pub fn open_at(
        alloc: Global,
        game: &'g Game,
        known: &Known,
        from: &Checkpoint,
    ) -> Result<Roll<'g>, AllocError>
        requires { from.now.frames ≤ confirmed known.now }
        ensures roll { IfOk result (λ roll.
            value_of roll ≡ roll_since game.entry.now (origin_of from.now) known.now) }
        ensures on_the_way { IsOnTheWay game.entry.now known.now (origin_of from.now)
            → IfOk result (λ roll. value_of roll ≡ roll_of game.entry.now known.now) }
        ensures ticks { IfOk result (λ roll. (value_of roll).ticks ≡ known.now.ticks) }
        ensures kept { IfOk result (λ roll.
            KeepsRows game.entry.now.window known.now (rows_run roll)) }
        ensures ran { IfOk result (λ roll. last_run_of roll + from.now.frames ≡ known.now.ticks) }
    {
        Ok(Roll::over(game, known, from, Buffers::new(alloc, game)?))
    }

    /// Creates the roll of what is known in memory that is already reserved, and runs it from a
    /// checkpoint on. Allocates nothing.
    pub fn over(game: &'g Game, known: &Known, from: &Checkpoint, buffers: Buffers) -> Roll<'g>
        requires room { buffers ≡ game.now.window + 1 }
        requires confirmed { from.now.frames ≤ confirmed known.now }
        ensures roll { value_of result ≡ roll_since game.entry.now (origin_of from.now) known.now }
        ensures ticks { (value_of result).ticks ≡ known.now.ticks }
        ensures kept { KeepsRows game.entry.now.window known.now (rows_run result) }
        ensures ran { last_run_of result + from.now.frames ≡ known.now.ticks }
    {
        let Buffers { marks, snapshots } = buffers;
        let mut marks = marks;
        let mut timeline = Timeline::new(game, from, snapshots);
        marks.read(from.frames, &from.marks);
        timeline.confirm_all(known, &mut marks);
        timeline.run_on(known);
        Roll { timeline, marks }
    }

    /// Advances by one tick of the own player: runs the new frame, and resimulates from the oldest frame
    /// whose best guess changed.
    pub fn advance(&mut self, known: &Known)
        requires { known.now.ticks ≡ (value_of self.old).ticks + 1 }
        ensures grows { GrowsTo (value_of self.old) (value_of self.new) known.now }
        ensures ticks { (value_of self.new).ticks ≡ known.now.ticks }
        ensures game { (value_of self.new).rules ≡ (value_of self.old).rules }
        ensures kept { WasKnown (value_of self.old) known.now
            → KeepsRows (value_of self.old).rules.window known.now (rows_run self.new) }
        ensures ran { HasAllRows (value_of self.old) → (oldest : Option ℕ)
            → IsOldestChange (rows_run self.old) (value_of self.old).confirmed known.now oldest
            → last_run_of self.new + run_from (value_of self.old).ticks oldest ≡ known.now.ticks }
        ensures again { RunsFromWhatWasKnown (value_of self.old) (rows_run self.old) known.now
            (last_run_of self.new) }
        ensures ahead { (value_of self.old).confirmed + last_run_of self.new ≤ known.now.ticks }
        ensures bound { IsWithinWindow (value_of self.old)
            → last_run_of self.new ≤ (value_of self.old).rules.window + 1 }
    {
        let _ = self.run(known);
    }

    /// Takes inputs that came without a tick of the own player. Returns the oldest frame whose best guess is no longer
    /// the row that was run, and resimulates from there.
    ///
    /// If the player is more than `window` + 1 frames ahead, the rows of the newest frames are not kept. Then, if no
    /// kept row differs, it returns the last frame whose row is kept.
    pub fn settle(&mut self, known: &Known) -> Option<u32>
        requires { known.now.ticks ≡ (value_of self.old).ticks }
        ensures grows { GrowsTo (value_of self.old) (value_of self.new) known.now }
        ensures ticks { (value_of self.new).ticks ≡ known.now.ticks }
        ensures game { (value_of self.new).rules ≡ (value_of self.old).rules }
        ensures kept { WasKnown (value_of self.old) known.now
            → KeepsRows (value_of self.old).rules.window known.now (rows_run self.new) }
        ensures oldest { HasAllRows (value_of self.old) → IsOldestChange (rows_run self.old)
            (value_of self.old).confirmed known.now result }
        ensures oldest_or_last { LacksRows (value_of self.old) → IsOldestOrLast (rows_run self.old)
            (value_of self.old).confirmed known.now result }
        ensures ran { last_run_of self.new + run_from known.now.ticks result ≡ known.now.ticks }
        ensures again { RunsFromWhatWasKnown (value_of self.old) (rows_run self.old) known.now
            (last_run_of self.new) }
        ensures ahead { (value_of self.old).confirmed + last_run_of self.new ≤ known.now.ticks }
        ensures bound { IsWithinWindow (value_of self.old)
            → last_run_of self.new ≤ (value_of self.old).rules.window }
    {
        self.run(known)
    }

    fn run(&mut self, known: &Known) -> Option<u32>
        requires { (value_of self.old).ticks ≤ known.now.ticks }
        ensures grows { GrowsTo (value_of self.old) (value_of self.new) known.now }
        ensures ticks { (value_of self.new).ticks ≡ known.now.ticks }
        ensures game { (value_of self.new).rules ≡ (value_of self.old).rules }
        ensures kept { WasKnown (value_of self.old) known.now
            → KeepsRows (value_of self.old).rules.window known.now (rows_run self.new) }
        ensures oldest { HasAllRows (value_of self.old) → IsOldestChange (rows_run self.old)
            (value_of self.old).confirmed known.now result }
        ensures oldest_or_last { LacksRows (value_of self.old) → IsOldestOrLast (rows_run self.old)
            (value_of self.old).confirmed known.now result }
        ensures ran { last_run_of self.new + run_from (value_of self.old).ticks result
            ≡ known.now.ticks }
        ensures again { RunsFromWhatWasKnown (value_of self.old) (rows_run self.old) known.now
            (last_run_of self.new) }
        ensures ahead { (value_of self.old).confirmed + last_run_of self.new ≤ known.now.ticks }
    {
        let oldest = self.timeline.go_back(known);
        self.timeline.confirm_all(known, &mut self.marks);
        self.timeline.run_on(known);
        oldest
    }

    /// Returns how many ticks the own player has made.
    pub fn ticks(&self) -> u32
        ensures { result ≡ (value_of self.now).ticks }
    {
        self.timeline.ticks()
    }

    /// Returns how many frames the last call ran: `open`, `open_at`, `over`, `advance` or `settle`.
    pub fn last_run(&self) -> u32
        ensures { result ≡ last_run_of self.now }
    {
        self.timeline.last_run()
    }

    /// Returns the machine that the player sees.
    pub fn shown(&self) -> &Machine
        ensures { state result.now ≡ (value_of self.now).shown }
    {
        self.timeline.shown()
    }

    /// Returns how many frames are confirmed, and the machine after them.
    pub fn base(&self) -> (u32, &Machine)
        ensures confirmed { result.0 ≡ (value_of self.now).confirmed }
        ensures machine { state result.1.now ≡ (value_of self.now).base }
    {
        (self.timeline.first(), self.timeline.base())
    }

    /// Returns the marks of the confirmed machine at the last sixteen multiples of 32 frames.
    pub fn marks(&self) -> &Marks
        ensures { result.now ≡ (value_of self.now).marks }
    {
        &self.marks
    }
}
