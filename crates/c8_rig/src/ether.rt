//! What the threads of a match share: a log of what each peer did, and all that was said.
ghost use Rattle.std.specs.Prelude.{◌≡◌, ◌≤◌, ◌<◌, ◌+◌, ℕ, List, [], ◌∷◌, ◌++◌, take, drop, length, Some, IfOk, IfSome, IfNone, IfErr, true, OnOk, OnErr, vec_len, vec_capacity};
ghost use Rattle.std.specs.List.{slice_get};
ghost use Rattle.c8_world.specs.Events.{act_of};
ghost use Rattle.c8_world.specs.World.{player_of, Give};
ghost use Rattle.c8_rig.specs.Gathered.{AreAll, AreParts};
ghost use Rattle.c8_rig.specs.Tokens.{with_note, IsDrawn, first_entries};
ghost use Rattle.c8_rig.specs.Log.{NoteValue, IsSaying, IsDoing, said_in, said_by, WasSaid, IsLawful, part_of};

use crate::note::{Note, is_part};
use crate::tokens::{Keeper, Part, Tokens};
use c8_game::{Game, Player};
use c8_live::Packet;
use c8_wire::LONGEST_DATAGRAM;
use c8_world::Act;
use std::alloc::{AllocError, Global};
use std::marker::{Brand, Model, PhantomData};
use std::sync::{Mutex, Wait};

/// Names one ether, and how many players it has. The caller's proof picks it.
pub trait Room {
    ghost use Rattle.std.specs.Prelude.{ℕ};
    ghost use Rattle.atomic_table.specs.Seated.{TableId};

    ghost players: { ℕ };

    ghost ether: { TableId };
}

impl Room for Brand {
    ghost use Rattle.c8_rig.specs.checked.Views.{no_ether};

    ghost players = { 0 };

    ghost ether = { no_ether };
}

/// The locked content: the log, and the datagrams that were said in it. The first datagram has the number 0.
#[derive(Drop)]
struct Book<B: Room> {
    notes: Vec<Note>,
    said: Vec<Packet>,
    keeper: Keeper,
    room: PhantomData<B>,
}

impl<B: Room> Model for Book<B> {
    ghost use Rattle.std.specs.Prelude.{◌≡◌, ◌≤◌, length, List};
    ghost use Rattle.std.specs.List.{All};
    ghost use Rattle.c8_wire.specs.declared.sizes.TheConstants.{LONGEST_DATAGRAM};
    ghost use Rattle.c8_rig.specs.Log.{NoteValue, said_by, IsLawful};

    ghost Value = { List NoteValue };

    ghost view = { λ b. b.notes.items };

    ghost invariant = { λ b.
        (b.keeper ≡ record { ether = B.ether; players = B.players; log = b.notes.items })
        × (b.said.items ≡ said_by b.notes.items)
        × All (λ bytes. length bytes ≤ LONGEST_DATAGRAM) b.said.items
        × IsLawful B.players b.notes.items };
}

/// A player's access to an ether, with the notes of the player's peer.
#[derive(Drop)]
pub struct Entry {
    player: Player,
    notes: Vec<Note>,
    part: Option<Part>,
}

impl Model for Entry {
    ghost use Rattle.std.specs.Prelude.{◌≡◌, Some};
    ghost use Rattle.c8_rig.specs.Tokens.{EntryValue};
    ghost use Rattle.c8_rig.specs.checked.Views.{entry_value};

    ghost Value = { EntryValue };

    ghost view = { λ e. entry_value e.player.number e.notes.items e.part };

    ghost invariant = { λ e.
        e.part ≡ Some (entry_value e.player.number e.notes.items e.part) };
}

impl Entry {
    /// Returns the player.
    pub fn player(&self) -> Player
        ensures { result.number ≡ self.now.player }
    {
        self.player
    }

    /// Returns the notes of the player's peer.
    pub fn notes(&self) -> &[Note]
        ensures { result.now ≡ self.now.notes }
    {
        &self.notes
    }
}

impl<B: Room> Book<B> {
    /// Adds a note of the part's player. If memory runs out, nothing changes.
    fn add(
        &mut self,
        tokens: &Tokens,
        part: Part,
        act: Act,
        bytes: &[u8],
    ) -> Result<Part, (AllocError, Part)>
        requires tokens { tokens.now ≡ B.ether }
        requires ether { part.ether ≡ B.ether }
        requires player { player_of (act_of act) ≡ part.player }
        requires from_one { 1 ≤ part.player }
        requires said { WasSaid (said_by self.old) (act_of act) bytes.now }
        requires few { length bytes.now ≤ LONGEST_DATAGRAM }
        ensures ok { IfOk result (λ new. new ≡ record part {
          notes = part.notes ++ record { act = act_of act; bytes = bytes.now } ∷ [];
        }) }
        ensures log { OnOk result
            (self.new ≡ self.old ++ record { act = act_of act; bytes = bytes.now } ∷ []) }
        ensures err { IfErr result (λ refused. refused.1 ≡ part) }
        ensures log_stays { OnErr result (self.new ≡ self.old) }
    {
        let Ok(heard) = Packet::try_from(bytes) else {
            unreachable!();
        };
        let Ok(said) = heard.clone() else {
            unreachable!();
        };
        if self.notes.reserve(1).is_err() || self.said.reserve(1).is_err() {
            return Err((AllocError, part));
        }
        // For the proof: the player has an entry.
        let part = tokens.compare(&mut self.keeper, part);
        let note = Note { act, bytes: heard };
        let part = tokens.add(&mut self.keeper, part, &note);
        let _noted = self.notes.push(note);
        keep_said(&mut self.said, act, said);
        Ok(part)
    }

    /// Returns whether an entry's notes are its player's part of the log. Proved: they are.
    fn is_part(&mut self, tokens: &Tokens, entry: &mut Entry) -> bool
        requires tokens { tokens.now ≡ B.ether }
        requires ether { entry.old.ether ≡ B.ether }
        ensures yes { result ≡ true }
        ensures part { entry.old.notes ≡ part_of entry.old.player self.old }
        ensures log { self.new ≡ self.old }
        ensures entry { entry.new ≡ entry.old }
    {
        let Some(part) = entry.part.take() else {
            unreachable!();
        };
        entry.part = Some(tokens.compare(&mut self.keeper, part));
        is_part(&self.notes, entry.player, &entry.notes)
    }

    /// Picks one of the packets that were said, and returns its number and a copy. `None` if nothing was said: then
    /// the part's player has said nothing either.
    fn pick(&mut self, tokens: &Tokens, part: Part, choice: u64) -> (Part, Option<(u64, Packet)>)
        requires tokens { tokens.now ≡ B.ether }
        requires ether { part.ether ≡ B.ether }
        ensures part { result.0 ≡ part }
        ensures log { self.new ≡ self.old }
        ensures none { IfNone result.1 (said_by part.notes ≡ []) }
        ensures some { IfSome result.1 (λ r. slice_get (said_by self.old) r.0 ≡ Some r.1) }
        ensures fits { IfSome result.1 (λ r. length r.1 ≤ LONGEST_DATAGRAM) }
    {
        // For the proof: what the player said is in the log.
        let part = tokens.compare(&mut self.keeper, part);
        let count = self.said.len() as u64;
        if count == 0 {
            return (part, None);
        }
        let number = choice % count;
        let Ok(packet) = self.said[number as usize].clone() else {
            unreachable!();
        };
        (part, Some((number, packet)))
    }
}

/// Adds what an act says, if it says anything.
fn keep_said(said: &mut Vec<Packet>, act: Act, bytes: Packet)
    requires { vec_len said.old < vec_capacity said.old }
    ensures { said.new.items ≡ said.old.items ++ said_in (act_of act) bytes }
{
    if matches!(act, Act::Say(_, _, _)) {
        let _said = said.push(bytes);
    }
}

/// An ether with an empty log, before the caller's proof names it. Contracts see which ether it is, and how many
/// players it has.
#[derive(Drop)]
pub struct Unnamed {
    players: u8,
    tokens: Tokens,
    keeper: Keeper,
}

impl Model for Unnamed {
    ghost use Rattle.std.specs.Prelude.{◌≡◌, []};
    ghost use Rattle.c8_rig.specs.Tokens.{EtherValue};

    ghost Value = { EtherValue };

    ghost view = { λ u. record { ether = u.tokens; players = u.players } };

    ghost invariant = { λ u.
        u.keeper ≡ record { ether = u.tokens; players = u.players; log = [] } };
}

impl Unnamed {
    /// Opens an ether for the players of a game, with an entry for each, player 1's first. The error is that memory ran
    /// out.
    pub fn open(alloc: Global, game: &Game) -> Result<(Unnamed, Vec<Entry>), AllocError>
        ensures players { IfOk result (λ r. r.0.players ≡ game.now.players) }
        ensures entries { IfOk result (λ r.
            r.1.items ≡ first_entries r.0.ether game.now.players) }
    {
        let (tokens, mut keeper) = Tokens::open(alloc)?;
        let mut entries = Vec::new(alloc);
        for number in 0..game.players() {
            let Some(player) = Player::new(number + 1) else {
                unreachable!();
            };
            let part = Some(tokens.enlist(&mut keeper));
            entries.push(Entry {
                player,
                notes: Vec::new(alloc),
                part,
            })?;
        }
        let players = game.players();
        let ether = Unnamed {
            players,
            tokens,
            keeper,
        };
        Ok((ether, entries))
    }

    /// Returns the ether, under the name that the proof picked.
    pub fn named<B: Room>(self, alloc: Global) -> Ether<B>
        requires ether { self.ether ≡ B.ether }
        requires players { self.players ≡ B.players }
    {
        let Unnamed {
            players: _,
            tokens,
            keeper,
        } = self;
        let book = Book {
            notes: Vec::new(alloc),
            said: Vec::new(alloc),
            keeper,
            room: PhantomData,
        };
        Ether {
            tokens,
            book: Mutex::new(book),
        }
    }
}

/// What the peers of a match share between their threads: a log under a lock.
#[derive(Drop)]
pub struct Ether<B: Room> {
    tokens: Tokens,
    book: Mutex<Book<B>>,
    ghost named: { tokens ≡ B.ether },
}

impl<B: Room> Ether<B> {
    /// Notes that the player's peer has said these bytes. The error is that memory ran out; then nothing has changed.
    /// The same holds for the calls below.
    pub fn post<R: Wait>(
        &self,
        rt: &R,
        entry: &mut Entry,
        act: Act,
        bytes: &[u8],
    ) -> Result<(), AllocError>
        requires ether { entry.old.ether ≡ B.ether }
        requires player { player_of (act_of act) ≡ entry.old.player }
        requires says { IsSaying (act_of act) }
        requires few { length bytes.now ≤ LONGEST_DATAGRAM }
        ensures ok { OnOk result (entry.new ≡ with_note entry.old (act_of act) bytes.now) }
        ensures err { OnErr result (entry.new ≡ entry.old) }
    {
        self.enter(rt, entry, act, bytes)
    }

    /// Notes what the player's peer is about to do: an opening, a tick, a leave, a decision or a checkpoint.
    pub fn note<R: Wait>(&self, rt: &R, entry: &mut Entry, act: Act) -> Result<(), AllocError>
        requires ether { entry.old.ether ≡ B.ether }
        requires player { player_of (act_of act) ≡ entry.old.player }
        requires does { IsDoing (act_of act) }
        ensures ok { OnOk result (entry.new ≡ with_note entry.old (act_of act) []) }
        ensures err { OnErr result (entry.new ≡ entry.old) }
    {
        self.enter(rt, entry, act, &[])
    }

    /// Draws one of the datagrams that were said, by `choice`, and notes that it is delivered to the player. It copies
    /// the bytes to the front of `out` and returns their number; the rest of `out` is unchanged. `None` if nothing was
    /// said. The error is that memory ran out. After `None` and after an error nothing has changed, `out` included.
    pub fn draw<R: Wait>(
        &self,
        rt: &R,
        entry: &mut Entry,
        choice: u64,
        out: &mut [u8; LONGEST_DATAGRAM],
    ) -> Result<Option<usize>, AllocError>
        requires ether { entry.old.ether ≡ B.ether }
        ensures some { IfOk result (λ drawn. IfSome drawn (λ size.
            IsDrawn entry.old (take size out.new) entry.new)) }
        ensures fits { IfOk result (λ drawn. IfSome drawn (λ size. size ≤ LONGEST_DATAGRAM)) }
        ensures behind { IfOk result (λ drawn. IfSome drawn (λ size.
            drop size out.new ≡ drop size out.old)) }
        ensures none { IfOk result (λ drawn. IfNone drawn
            ((entry.new ≡ entry.old) × (out.new ≡ out.old))) }
        ensures unsaid { IfOk result (λ drawn. IfNone drawn (said_by entry.old.notes ≡ [])) }
        ensures err { OnErr result ((entry.new ≡ entry.old) × (out.new ≡ out.old)) }
    {
        entry.notes.reserve(1)?;
        let Some(part) = entry.part.take() else {
            unreachable!();
        };
        let mut book = self.book.lock(rt);
        let (part, picked) = book.pick(&self.tokens, part, choice);
        let Some((number, packet)) = picked else {
            entry.part = Some(part);
            return Ok(None);
        };
        let act = Act::Give(number, entry.player);
        let bytes = packet.as_bytes();
        match book.add(&self.tokens, part, act, bytes) {
            Ok(part) => {
                entry.part = Some(part);
                let size = bytes.len();
                out[..size].copy_from_slice(bytes);
                let _noted = entry.notes.push(Note { act, bytes: packet });
                Ok(Some(size))
            }
            Err((error, part)) => {
                entry.part = Some(part);
                Err(error)
            }
        }
    }

    /// Returns the log, if each entry's notes are its player's part of it. Proved: they are.
    pub(crate) fn into_log(self, entries: Vec<Entry>) -> Option<Vec<Note>>
        requires { AreAll B.ether B.players entries.items }
        ensures whole { IfNone result ⊥ }
        ensures lawful { IfSome result (λ log. IsLawful B.players log.items) }
        ensures parts { IfSome result (λ log. AreParts log.items entries.items) }
    {
        let Ether { tokens, book } = self;
        let mut book = book.into_inner();
        let mut entries = entries;
        for place in 0..entries.len() {
            if !book.is_part(&tokens, &mut entries[place]) {
                return None;
            }
        }
        Some(book.notes)
    }

    /// Adds a note of an act that delivers nothing, with at most a datagram's bytes.
    fn enter<R: Wait>(
        &self,
        rt: &R,
        entry: &mut Entry,
        act: Act,
        bytes: &[u8],
    ) -> Result<(), AllocError>
        requires ether { entry.old.ether ≡ B.ether }
        requires player { player_of (act_of act) ≡ entry.old.player }
        requires unheard { (said : List (List ℕ)) → WasSaid said (act_of act) bytes.now }
        requires few { length bytes.now ≤ LONGEST_DATAGRAM }
        ensures ok { OnOk result (entry.new ≡ with_note entry.old (act_of act) bytes.now) }
        ensures err { OnErr result (entry.new ≡ entry.old) }
    {
        let Ok(packet) = Packet::try_from(bytes) else {
            unreachable!();
        };
        entry.notes.reserve(1)?;
        let Some(part) = entry.part.take() else {
            unreachable!();
        };
        match self.book.lock(rt).add(&self.tokens, part, act, bytes) {
            Ok(part) => {
                entry.part = Some(part);
                let _noted = entry.notes.push(Note { act, bytes: packet });
                Ok(())
            }
            Err((error, part)) => {
                entry.part = Some(part);
                Err(error)
            }
        }
    }
}
