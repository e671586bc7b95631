//! What the pen and the viewers know, and the steps that change it. Only proofs have values of these types.

use atomic_table::{Join, Play, Split, TableRule};
use c8_digest::FrameMark;
use c8_game::{Game, Row};
use std::collections::LinkedList;
use std::marker::{Brand, Model, PhantomData};

/// Where a board's run begins: after how many frames, the bytes of the machine then, and the marks kept then.
pub struct Start {
    pub frames: u64,
    pub machine: LinkedList<u8>,
    pub marks: LinkedList<FrameMark>,
}

impl Model for Start {
    ghost use Rattle.c8_live.specs.Starts.{StartValue};

    ghost Value = { StartValue };

    ghost view = { λ s. record { frames = s.frames; machine = s.machine; marks = s.marks } };
}

/// What a viewer knows: the game, where the run begins, the rows that it saw, whether it has asked for the end, and how
/// often it has looked.
pub struct Watch {
    pub game: Game,
    pub from: Start,
    pub seen: LinkedList<Row>,
    pub asked: bool,
    pub loads: u64,
}

/// What a token of a board knows.
pub enum View {
    /// The first seat before anything is published: the game.
    Blank(Game),
    /// The pen: the game, where the run begins, and the rows that it published last.
    Alone(Game, Start, LinkedList<Row>),
    /// The pen, together with the view of a viewer.
    Joined(Game, Start, LinkedList<Row>, Watch),
    /// A viewer.
    Watching(Watch),
    /// A viewer whose view is with the pen.
    Spent,
}

/// The rows of a step, picked by the caller's proof.
pub trait Rows {
    ghost use Rattle.std.specs.Prelude.{List};
    ghost use Rattle.c8_game.specs.declared.row.Row.{Row};

    ghost rows: { List Row };
}

impl Rows for Brand {
    ghost use Rattle.std.specs.Prelude.{[]};

    ghost rows = { [] };
}

/// The start and the rows of the first step, picked by the caller's proof.
pub trait Run {
    ghost use Rattle.std.specs.Prelude.{List};
    ghost use Rattle.c8_game.specs.declared.row.Row.{Row};
    ghost use Rattle.c8_live.specs.Starts.{StartValue};

    ghost from: { StartValue };

    ghost rows: { List Row };
}

impl Run for Brand {
    ghost use Rattle.std.specs.Prelude.{[]};
    ghost use Rattle.c8_live.specs.checked.Views.{no_start};

    ghost from = { no_start };

    ghost rows = { [] };
}

/// The invariant of a board.
pub struct Order;

impl TableRule<(), View, Game> for Order {
    ghost use Rattle.c8_live.specs.declared.views.View.TheVariants.{Blank};
    ghost use Rattle.c8_live.specs.checked.Rule.{Keeps};

    ghost holds = { λ game s. Keeps s };

    ghost first = { λ game. Blank game };
}

/// The blank seat becomes the pen's, and stores the word of the rows.
pub struct Begin<R: Run>(PhantomData<R>);

impl<R: Run> Play<(), View> for Begin<R> {
    ghost use Rattle.std.specs.Prelude.{◌≡◌};
    ghost use Rattle.c8_live.specs.checked.Rule.{begin_view};

    ghost then = { λ step before found after.
        after ≡ (begin_view R.from R.rows before.0, before.1) };
}

/// The pen stores the word of the rows.
pub struct Publish<R: Rows>(PhantomData<R>);

impl<R: Rows> Play<(), View> for Publish<R> {
    ghost use Rattle.std.specs.Prelude.{◌≡◌};
    ghost use Rattle.c8_live.specs.checked.Rule.{publish_view};

    ghost then = { λ step before found after. after ≡ (publish_view R.rows before.0, before.1) };
}

/// A viewer loads the pen's word.
pub struct See;

impl Play<(), View> for See {
    ghost use Rattle.c8_live.specs.checked.Rule.{Looks};

    ghost then = { λ step before found after. Looks before found after };
}

/// The pen, with a viewer, loads its own word.
pub struct Compare;

impl Play<(), View> for Compare {
    ghost use Rattle.c8_live.specs.checked.Rule.{Compares};

    ghost then = { λ step before found after. Compares before found after };
}

/// A viewer sets the stop word to 1.
pub struct Ask;

impl Play<(), View> for Ask {
    ghost use Rattle.std.specs.Prelude.{◌≡◌};
    ghost use Rattle.c8_live.specs.checked.Rule.{ask_view};

    ghost then = { λ step before found after. after ≡ (ask_view before.0, before.1) };
}

/// The pen loads the stop word, and learns nothing certain from it.
pub struct Wish;

impl Play<(), View> for Wish {
    ghost use Rattle.std.specs.Prelude.{◌≡◌};

    ghost then = { λ step before found after. after ≡ before };
}

/// A new viewer is split off the pen.
pub struct Enlist;

impl Split<View> for Enlist {
    ghost use Rattle.c8_live.specs.checked.Rule.{newcomer_of};

    ghost left = { λ view. view };

    ghost right = { newcomer_of };
}

/// The pen takes a viewer's view, or gives it back.
pub struct Pair;

impl Join<View> for Pair {
    ghost use Rattle.c8_live.specs.declared.views.View.TheVariants.{Spent};
    ghost use Rattle.c8_live.specs.checked.Rule.{join_views};

    ghost both = { join_views };

    ghost spent = { Spent };
}

impl Split<View> for Pair {
    ghost use Rattle.c8_live.specs.checked.Rule.{pen_of, viewer_of};

    ghost left = { pen_of };

    ghost right = { viewer_of };
}
