//! The roll of what is known, computed by running everything from the first frame.
use c8_digest::{Marks, mark};
use c8_game::{Game, Row};
use c8_known::Known;
use c8_machine::Machine;
use c8_roll::Roll;
use std::alloc::{AllocError, Global};

/// The number of frames from one mark to the next.
const STEP: u32 = 32;

/// What a roll must show.
#[derive(Drop)]
struct Slow {
    confirmed: u32,
    base: Machine,
    shown: Machine,
    marks: Marks,
}

/// Returns whether a roll shows the same as one that runs everything again.
pub fn is_as_slow(alloc: Global, game: &Game, known: &Known, roll: &Roll<'_>) -> bool {
    match Slow::new(alloc, game, known) {
        Ok(slow) => slow.is_as(roll),
        Err(_) => false,
    }
}

impl Slow {
    fn new(alloc: Global, game: &Game, known: &Known) -> Result<Slow, AllocError> {
        let mut marks = Marks::new(alloc)?;
        let mut base = Machine::start(game);
        marks.put(0, mark(&base));
        let confirmed = known.confirmed();
        for frame in 0..confirmed {
            base.frame(game, game.joined(&known.row(frame)));
            if (frame + 1) % STEP == 0 {
                marks.put(frame + 1, mark(&base));
            }
        }
        let mut shown = base;
        for frame in confirmed..known.ticks() {
            shown.frame(game, game.joined(&known.best(frame)));
        }
        Ok(Slow {
            confirmed,
            base,
            shown,
            marks,
        })
    }

    fn is_as(&self, roll: &Roll<'_>) -> bool {
        let (confirmed, base) = roll.base();
        confirmed == self.confirmed
            && *base == self.base
            && *roll.shown() == self.shown
            && are_same(roll.marks(), &self.marks, confirmed)
    }
}

/// Returns whether two have the same marks at the multiples up to a frame, and lack the same.
fn are_same(some: &Marks, others: &Marks, frame: u32) -> bool {
    for n in 0..frame / STEP + 1 {
        if some.get(n * STEP) != others.get(n * STEP) {
            return false;
        }
    }
    some.newest() == others.newest()
}

/// How many of the last frames are compared.
const KEPT: usize = 64;

/// The best guesses at the last frames that the own player has ticked.
#[derive(Clone, Copy)]
pub struct Guesses {
    first: u32,
    rows: [Row; KEPT],
}

impl Guesses {
    pub fn of(known: &Known) -> Guesses {
        let first = known.ticks().saturating_sub(KEPT as u32);
        let mut rows = [Row::default(); KEPT];
        for (frame, row) in (first..known.ticks()).zip(rows.iter_mut()) {
            *row = known.best(frame);
        }
        Guesses { first, rows }
    }

    /// Returns the oldest frame before frame `ticks` whose best guess has changed.
    pub fn oldest_change(&self, ticks: u32, known: &Known) -> Option<u32> {
        for (frame, row) in (self.first..ticks).zip(&self.rows) {
            if *row != known.best(frame) {
                return Some(frame);
            }
        }
        None
    }
}
