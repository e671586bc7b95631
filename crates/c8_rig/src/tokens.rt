//! The tokens of an ether, without bytes: the keeper's knows the log, and one for each player knows the player's part
//! of it.
ghost use Rattle.std.specs.Prelude.{◌≡◌, ◌≤◌, ◌+◌, [], ◌∷◌, ◌++◌, IfOk};
ghost use Rattle.c8_world.specs.World.{player_of};
ghost use Rattle.c8_rig.specs.Log.{part_of};

use crate::note::Note;
use crate::views::{Add, Compare, Enlist, Noted, Order, Pair, View};
use atomic_table::{Seat, Table};
use std::alloc::{AllocError, Global};
use std::marker::{Brand, Model};

/// The one word of a table. Its value means nothing: each step of the rule is one load of it.
const WORD: usize = 0;

/// The table that the tokens of one ether belong to.
#[derive(Drop)]
pub(crate) struct Tokens {
    table: Table<(), View, (), Order, Global>,
}

impl Model for Tokens {
    ghost use Rattle.std.specs.Prelude.{◌≡◌};
    ghost use Rattle.atomic_table.specs.Seated.{TableId, table_id_coded};

    ghost Value = { TableId };

    ghost coded = { table_id_coded };

    ghost view = { λ t. t.table.shared.table_id };

    ghost invariant = { λ t. t.table.shared.table_id.words ≡ 1 };
}

/// Knows how many players have an entry, and the log.
#[derive(Drop)]
pub(crate) struct Keeper {
    seat: Seat<(), View>,
}

impl Model for Keeper {
    ghost use Rattle.c8_rig.specs.Tokens.{KeeperValue};
    ghost use Rattle.c8_rig.specs.checked.Views.{keeper_value, IsKeeper};

    ghost Value = { KeeperValue };

    ghost view = { λ k. keeper_value k.seat.table_id k.seat.me.0 };

    ghost invariant = { λ k. IsKeeper k.seat.me };
}

/// Knows its player, and that player's part of the log.
#[derive(Drop)]
pub(crate) struct Part {
    seat: Seat<(), View>,
}

impl Model for Part {
    ghost use Rattle.c8_rig.specs.Tokens.{EntryValue};
    ghost use Rattle.c8_rig.specs.checked.Views.{own_value, IsOwn};

    ghost Value = { EntryValue };

    ghost view = { λ p. own_value p.seat.table_id p.seat.me.0 };

    ghost invariant = { λ p. IsOwn p.seat.me };
}

impl Tokens {
    /// Returns the keeper of an empty log without players.
    pub(crate) fn open(alloc: Global) -> Result<(Tokens, Keeper), AllocError>
        ensures { IfOk result (λ r.
            r.1 ≡ record { ether = r.0; players = 0; log = [] }) }
    {
        let (table, seat) = Table::of_words(alloc, &[0], &())?;
        Ok((Tokens { table }, Keeper { seat }))
    }

    /// Makes the part of the next player, without notes.
    pub(crate) fn enlist(&self, keeper: &mut Keeper) -> Part
        requires { keeper.old.ether ≡ self.now }
        ensures keeper { keeper.new
            ≡ record keeper.old { players = keeper.old.players + 1 } }
        ensures part { result
            ≡ record { ether = self.now; player = keeper.old.players + 1; notes = [] } }
    {
        Part {
            seat: self.table.shared.split_seat::<Enlist>(&mut keeper.seat),
        }
    }

    /// Adds a note of the part's player.
    pub(crate) fn add(&self, keeper: &mut Keeper, part: Part, note: &Note) -> Part
        requires keeper { keeper.old.ether ≡ self.now }
        requires part { part.ether ≡ self.now }
        requires player { player_of note.now.act ≡ part.player }
        ensures keeper { keeper.new
            ≡ record keeper.old { log = keeper.old.log ++ note.now ∷ [] } }
        ensures part { result ≡ record part { notes = part.notes ++ note.now ∷ [] } }
    {
        self.enter::<Brand>(keeper, part, note)
    }

    /// The part of `add` that needs the proof: it names the note.
    fn enter<N: Noted>(&self, keeper: &mut Keeper, part: Part, _note: &Note) -> Part
        requires note { _note.now ≡ N.note }
        requires keeper { keeper.old.ether ≡ self.now }
        requires part { part.ether ≡ self.now }
        requires player { player_of N.note.act ≡ part.player }
        ensures keeper { keeper.new
            ≡ record keeper.old { log = keeper.old.log ++ N.note ∷ [] } }
        ensures part { result ≡ record part { notes = part.notes ++ N.note ∷ [] } }
    {
        let table = &self.table.shared;
        table.join_seat::<Pair>(&mut keeper.seat, part.seat);
        let _word = table.load::<Add<N>>(&mut keeper.seat, WORD);
        Part {
            seat: table.split_seat::<Pair>(&mut keeper.seat),
        }
    }

    /// Joins keeper and part for a moment, which shows that the part is its player's part of the log, and that the player
    /// has an entry.
    pub(crate) fn compare(&self, keeper: &mut Keeper, part: Part) -> Part
        requires keeper { keeper.old.ether ≡ self.now }
        requires part { part.ether ≡ self.now }
        ensures keeper { keeper.new ≡ keeper.old }
        ensures part { result ≡ part }
        ensures part_is { part.notes ≡ part_of part.player keeper.old.log }
        ensures in_game { part.player ≤ keeper.old.players }
    {
        let table = &self.table.shared;
        table.join_seat::<Pair>(&mut keeper.seat, part.seat);
        let _word = table.load::<Compare>(&mut keeper.seat, WORD);
        Part {
            seat: table.split_seat::<Pair>(&mut keeper.seat),
        }
    }
}
