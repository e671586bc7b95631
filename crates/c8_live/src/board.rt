//! The board, its pen and its viewers.
ghost use Rattle.std.specs.Prelude.{◌≡◌, ◌≤◌, ◌<◌, true, List, [], length, vec_len, IfOk};
ghost use Rattle.std.specs.List.{All};
ghost use Rattle.c8_game.specs.Rules.{most_frames};
ghost use Rattle.c8_game.specs.declared.row.Row.{Row};
ghost use Rattle.c8_machine.specs.State.{state};
ghost use Rattle.c8_digest.specs.Origin.{run_since};
ghost use Rattle.c8_live.specs.declared.views.View.TheVariants.{Blank};
ghost use Rattle.c8_live.specs.Starts.{RunValue, origin_from};
ghost use Rattle.c8_live.specs.Words.{word, look_of};
ghost use Rattle.c8_live.specs.Tokens.{Begins, new_viewer, SeesMore};

use crate::look::{Look, word};
use crate::views::{Ask, Begin, Compare, Enlist, Order, Pair, Publish, Rows, Run, See, View, Wish};
use atomic_table::{Seat, Table};
use c8_digest::Marker;
use c8_game::Game;
use c8_machine::Machine;
use std::alloc::{AllocError, Global};
use std::marker::{Brand, Model};

/// The word with the count and the bits.
const SHOWN: usize = 0;

/// The word that is 0, and 1 once a viewer has asked for the end of the match.
const STOP: usize = 1;

/// Two words that threads share. Contracts see which board it is.
#[derive(Drop)]
pub struct Board {
    table: Table<(), View, Game, Order, Global>,
}

impl Model for Board {
    ghost use Rattle.std.specs.Prelude.{◌≡◌};
    ghost use Rattle.atomic_table.specs.Seated.{TableId, table_id_coded};

    ghost Value = { TableId };

    ghost coded = { table_id_coded };

    ghost view = { λ b. b.table.shared.table_id };

    ghost invariant = { λ b. b.table.shared.table_id.words ≡ 2 };
}

/// The right to publish on a board; each board has one. Contracts see the game, where the run begins, and the rows that
/// were published last.
#[derive(Drop)]
pub struct Pen {
    seat: Seat<(), View>,
    marker: Marker,
}

impl Model for Pen {
    ghost use Rattle.c8_live.specs.Tokens.{PenValue};
    ghost use Rattle.c8_live.specs.checked.Views.{pen_value, IsPen};

    ghost Value = { PenValue };

    ghost view = { λ p. pen_value p.seat.table_id p.seat.me.0 };

    ghost invariant = { λ p. IsPen p.seat.me };
}

/// The right to look at a board. Contracts see the game, where the run begins, the rows that the viewer saw last,
/// whether it has asked for the end, and how often it has looked.
#[derive(Drop)]
pub struct Viewer {
    seat: Seat<(), View>,
}

impl Model for Viewer {
    ghost use Rattle.c8_live.specs.Tokens.{ViewerValue};
    ghost use Rattle.c8_live.specs.checked.Views.{viewer_value, IsViewer};

    ghost Value = { ViewerValue };

    ghost view = { λ v. viewer_value v.seat.table_id v.seat.me.0 };

    ghost invariant = { λ v. IsViewer v.seat.me };
}

impl Board {
    /// Makes a board for a game, with its pen and 1 to 4 viewers, and publishes the machine after `count` confirmed
    /// frames.
    ///
    /// The caller's proof picks the start and the rows that led from it to this machine; the board keeps the start.
    /// Fails only if memory is refused. No other call takes memory.
    pub fn open(
        alloc: Global,
        game: &Game,
        count: u32,
        confirmed: &Machine,
        viewers: usize,
    ) -> Result<(Board, Pen, Vec<Viewer>), AllocError>
        ghost run: { RunValue }
        requires count { count ≡ length run.rows }
        requires frames { count ≤ most_frames }
        requires machine { state confirmed.now
            ≡ run_since game.now (origin_from run.from) run.rows }
        requires some { 1 ≤ viewers }
        requires few { viewers ≤ 4 }
        ensures pen { IfOk result (λ r.
            r.1 ≡ record { board = r.0; game = game.now; from = run.from; rows = run.rows }) }
        ensures viewers { IfOk result (λ r.
            All (λ v. v ≡ new_viewer r.0 game.now run.from run.rows) r.2.items) }
        ensures count { IfOk result (λ r. vec_len r.2 ≡ viewers) }
    {
        let (table, seat) = Table::of_words(alloc, &[0, 0], game)?;
        let board = Board { table };
        let found = word(count, confirmed, &mut Marker::new());
        let mut pen = board.begin::<Brand>(seat, game, found);
        let seated = board.enlist_all(alloc, &mut pen, viewers)?;
        Ok((board, pen, seated))
    }

    /// Makes viewers that have seen what the pen has published.
    fn enlist_all(
        &self,
        alloc: Global,
        pen: &mut Pen,
        viewers: usize,
    ) -> Result<Vec<Viewer>, AllocError>
        requires { pen.old.board ≡ self.now }
        ensures pen { pen.new ≡ pen.old }
        ensures viewers { IfOk result (λ seated. All (λ v. v
            ≡ new_viewer pen.old.board pen.old.game pen.old.from pen.old.rows) seated.items) }
        ensures count { IfOk result (λ seated. vec_len seated ≡ viewers) }
    {
        let mut seated = Vec::with_capacity(alloc, viewers)?;
        for _ in 0..viewers {
            seated.push(self.enlist(&mut *pen))?;
        }
        Ok(seated)
    }

    /// Makes the pen of a board with nothing published, and stores the word of the rows.
    fn begin<R: Run>(&self, mut seat: Seat<(), View>, _game: &Game, found: u64) -> Pen
        requires board { seat.table_id ≡ self.now }
        requires blank { seat.me ≡ (Blank _game.now, []) }
        requires word { found ≡ word _game.now (origin_from R.from) R.rows }
        ensures { result
            ≡ record { board = self.now; game = _game.now; from = R.from; rows = R.rows } }
    {
        self.table.shared.store::<Begin<R>>(&mut seat, SHOWN, found);
        Pen {
            seat,
            marker: Marker::new(),
        }
    }

    /// Makes a viewer that has seen what the pen has published.
    fn enlist(&self, pen: &mut Pen) -> Viewer
        requires board { pen.old.board ≡ self.now }
        ensures pen { pen.new ≡ pen.old }
        ensures viewer { result
            ≡ new_viewer pen.old.board pen.old.game pen.old.from pen.old.rows }
    {
        Viewer {
            seat: self.table.shared.split_seat::<Enlist>(&mut pen.seat),
        }
    }

    /// Publishes the machine after `count` confirmed frames: the run of rows from the board's start on, which begin
    /// with the rows that were published last. The caller's proof picks the rows; they do not exist at run time.
    pub fn publish(&self, pen: &mut Pen, count: u32, confirmed: &Machine)
        ghost rows: { List Row }
        requires board { pen.old.board ≡ self.now }
        requires later { Begins pen.old.rows rows }
        requires count { count ≡ length rows }
        requires few { count ≤ most_frames }
        requires machine { state confirmed.now
            ≡ run_since pen.old.game (origin_from pen.old.from) rows }
        ensures { pen.new ≡ record pen.old { rows = rows } }
    {
        let found = word(count, confirmed, &mut pen.marker);
        self.store::<Brand>(pen, found);
    }

    /// Stores the word of the rows.
    fn store<R: Rows>(&self, pen: &mut Pen, found: u64)
        requires board { pen.old.board ≡ self.now }
        requires later { Begins pen.old.rows R.rows }
        requires word { found ≡ word pen.old.game (origin_from pen.old.from) R.rows }
        ensures { pen.new ≡ record pen.old { rows = R.rows } }
    {
        self.table
            .shared
            .store::<Publish<R>>(&mut pen.seat, SHOWN, found);
    }

    /// Looks at the board: one load, and no lock.
    pub fn look(&self, viewer: &mut Viewer) -> Look
        requires { viewer.old.board ≡ self.now }
        ensures { SeesMore viewer.old result viewer.new }
    {
        Look::of(self.table.shared.load::<See>(&mut viewer.seat, SHOWN))
    }

    /// Looks while holding the pen and a viewer: the look shows exactly what the pen published, which begins with all
    /// that the viewer saw. The viewer has seen it after the call.
    pub fn look_with(&self, pen: Pen, viewer: Viewer) -> (Look, Pen, Viewer)
        requires pen { pen.board ≡ self.now }
        requires viewer { viewer.board ≡ self.now }
        ensures look { result.0 ≡ look_of pen.game (origin_from pen.from) pen.rows }
        ensures begins { Begins viewer.seen pen.rows }
        ensures pen { result.1 ≡ pen }
        ensures viewer { result.2 ≡ record {
          board = viewer.board;
          game = pen.game;
          from = pen.from;
          seen = pen.rows;
          asked = viewer.asked;
          loads = viewer.loads;
        } }
        ensures game { viewer.game ≡ pen.game }
        ensures from { viewer.from ≡ pen.from }
    {
        let Pen {
            seat: mut joined,
            marker,
        } = pen;
        let Viewer { seat: other } = viewer;
        self.table.shared.join_seat::<Pair>(&mut joined, other);
        let found = self.table.shared.load::<Compare>(&mut joined, SHOWN);
        let apart = self.table.shared.split_seat::<Pair>(&mut joined);
        (
            Look::of(found),
            Pen {
                seat: joined,
                marker,
            },
            Viewer { seat: apart },
        )
    }

    /// Asks for the end of the match. This cannot be taken back.
    pub fn ask_stop(&self, viewer: &mut Viewer)
        requires { viewer.old.board ≡ self.now }
        ensures { viewer.new ≡ record viewer.old { asked = true } }
    {
        let _found = self.table.shared.fetch_or::<Ask>(&mut viewer.seat, STOP, 1);
    }

    /// Returns whether a viewer has asked for the end of the match. No clause says which answer comes: a viewer may ask
    /// at any moment.
    pub fn stop_asked(&self, pen: &mut Pen) -> bool
        requires { pen.old.board ≡ self.now }
        ensures { pen.new ≡ pen.old }
    {
        self.table.shared.load::<Wish>(&mut pen.seat, STOP) == 1
    }
}
