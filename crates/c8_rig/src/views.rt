//! What the keeper of a log and the owners of its parts know, and the steps in which that changes. Only proofs have
//! values of these types.

use crate::note::Note;
use atomic_table::{Join, Play, Split, TableRule};
use std::collections::LinkedList;
use std::marker::{Brand, PhantomData};

/// What a token of an ether knows.
pub enum View {
    /// The keeper: how many players have an entry, and the log.
    Keeper(u64, LinkedList<Note>),
    /// An entry: its player, and the player's notes.
    Own(u64, LinkedList<Note>),
    /// The keeper, with an entry's view beside its own.
    Both(u64, LinkedList<Note>, u64, LinkedList<Note>),
    /// An entry whose view went to the keeper.
    Spent,
}

/// The note of a step. The caller's proof picks it.
pub trait Noted {
    ghost use Rattle.c8_rig.specs.Log.{NoteValue};

    ghost note: { NoteValue };
}

impl Noted for Brand {
    ghost use Rattle.std.specs.Prelude.{[]};
    ghost use Rattle.c8_world.specs.World.{Open};

    ghost note = { record { act = Open 0; bytes = [] } };
}

/// The rule of an ether.
pub struct Order;

impl TableRule<(), View, ()> for Order {
    ghost use Rattle.std.specs.Prelude.{[]};
    ghost use Rattle.c8_rig.specs.declared.views.View.TheVariants.{Keeper};
    ghost use Rattle.c8_rig.specs.checked.Rule.{Keeps};

    ghost holds = { λ key s. Keeps s };

    ghost first = { λ key. Keeper 0 [] };
}

/// The keeper makes an entry for the next player.
pub struct Enlist;

impl Split<View> for Enlist {
    ghost use Rattle.c8_rig.specs.checked.Rule.{with_player, new_entry};

    ghost left = { with_player };

    ghost right = { new_entry };
}

/// The keeper takes an entry's view in, or gives it back.
pub struct Pair;

impl Join<View> for Pair {
    ghost use Rattle.c8_rig.specs.declared.views.View.TheVariants.{Spent};
    ghost use Rattle.c8_rig.specs.checked.Rule.{both};

    ghost both = { both };

    ghost spent = { Spent };
}

impl Split<View> for Pair {
    ghost use Rattle.c8_rig.specs.checked.Rule.{keeper_of, entry_of};

    ghost left = { keeper_of };

    ghost right = { entry_of };
}

/// The keeper, joined with an entry, adds a note.
pub struct Add<N: Noted>(PhantomData<N>);

impl<N: Noted> Play<(), View> for Add<N> {
    ghost use Rattle.std.specs.Prelude.{◌≡◌};
    ghost use Rattle.c8_rig.specs.checked.Rule.{noted};

    ghost then = { λ step before found after. after ≡ (noted N.note before.0, before.1) };
}

/// The keeper, joined with an entry, compares the part with the log.
pub struct Compare;

impl Play<(), View> for Compare {
    ghost use Rattle.c8_rig.specs.checked.Rule.{Compares};

    ghost then = { λ step before found after. Compares before found after };
}
