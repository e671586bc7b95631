//! Writes the body of a record.
ghost use Rattle.std.specs.Prelude.{◌≡◌, ◌≤◌, ◌*◌, ◌/◌, ◌∷◌, ◌++◌, drop, length};
ghost use Rattle.c8_known.specs.Journal.{Head, Epoch, Own, Got, Cut, State, Check};
ghost use Rattle.c8_wire.specs.Packet.{AreWords};
ghost use Rattle.c8_wire.specs.Spelling.{words_bytes};
ghost use Rattle.c8_wire.specs.Lent.{words, words_left};
ghost use Rattle.byteorder.specs.Endian.{big_bytes};
ghost use Rattle.c8_wire.specs.Sizes.{longest_run};
ghost use Rattle.c8_record.specs.Body.{field_bytes, body_of, Spells, IsForm, digest_words};
ghost use Rattle.c8_record.specs.Lent.{value_of, IsComplete};

use crate::checks::PIECES;
use crate::record::{RUN_PLACE, Record};
use c8_game::{Keys, Player};
use c8_log::BODY_LENGTH;
use c8_wire::{Inputs, Run};

/// Returns the 143 bytes that spell a record. A form other than 0 or 2, a `Got` without inputs, or a
/// `Check` whose run does not have 4 words gives bytes that [`crate::view`] refuses.
#[tactic(auto, unfolding(crate::specs::Body::body_of))]
pub fn body_of(lent: &Record<'_>) -> [u8; BODY_LENGTH]
    ensures body { result ≡ body_of (value_of lent.now) }
    ensures spells { IsComplete lent.now → Spells result (value_of lent.now) }
{
    match *lent {
        Record::Head {
            player,
            form,
            id,
            room,
        } => head_body(player, form, id, room),
        Record::Epoch {
            player,
            number,
            form,
        } => epoch_body(player, number, form),
        Record::Own {
            player,
            start,
            keys,
        } => own_body(player, start, keys),
        Record::Got { player, start, run } => got_body(player, start, run),
        Record::Freeze { player } => spell(5, player, 0, 0, &[]),
        Record::Leave { player } => spell(6, player, 0, 0, &[]),
        Record::Cut {
            player,
            length,
            start,
            run,
        } => cut_body(player, length, start, run),
        Record::State {
            player,
            frames,
            piece,
            run,
        } => state_body(player, frames, piece, run),
        Record::Check {
            player,
            frames,
            run,
        } => check_body(player, frames, run),
    }
}

#[tactic(auto, unfolding(crate::specs::Body::body_of))]
fn head_body(player: Player, form: u32, id: &[u8; 32], room: u64) -> [u8; BODY_LENGTH]
    ensures body { result ≡ body_of (Head player.number form id.now room) }
    ensures spells { IsForm form → Spells result (Head player.number form id.now room) }
{
    spell(1, player, 1, form, &match_run(id, room))
}

#[tactic(auto, unfolding(crate::specs::Body::body_of))]
fn epoch_body(player: Player, number: u32, form: u32) -> [u8; BODY_LENGTH]
    ensures body { result ≡ body_of (Epoch player.number number form) }
    ensures spells { IsForm form → Spells result (Epoch player.number number form) }
{
    spell(2, player, number, form, &[])
}

#[tactic(auto, unfolding(crate::specs::Body::body_of))]
fn own_body(player: Player, start: u32, keys: Keys) -> [u8; BODY_LENGTH]
    ensures body { result ≡ body_of (Own player.number start keys.0) }
    ensures spells { Spells result (Own player.number start keys.0) }
{
    spell(3, player, 0, start, &keys.0.to_be_bytes())
}

#[tactic(auto, unfolding(crate::specs::Body::body_of))]
fn got_body(player: Player, start: u32, run: Run<'_>) -> [u8; BODY_LENGTH]
    ensures body { result ≡ body_of (Got player.number start (words run.entry)) }
    ensures spells { 1 ≤ length (words run.entry)
        → Spells result (Got player.number start (words run.entry)) }
{
    spell_inputs(4, player, 0, start, run)
}

#[tactic(auto, unfolding(crate::specs::Body::body_of))]
fn cut_body(player: Player, length: u32, start: u32, run: Run<'_>) -> [u8; BODY_LENGTH]
    ensures body { result ≡ body_of (Cut player.number length start (words run.entry)) }
    ensures spells { Spells result (Cut player.number length start (words run.entry)) }
{
    spell_inputs(7, player, length, start, run)
}

#[tactic(auto, unfolding(crate::specs::Body::body_of))]
fn state_body(player: Player, frames: u32, piece: u32, run: Run<'_>) -> [u8; BODY_LENGTH]
    ensures body { result ≡ body_of (State player.number frames piece (words_bytes (words run.entry))) }
    ensures spells { Spells result (State player.number frames piece (words_bytes (words run.entry))) }
{
    spell_inputs(8, player, frames, piece, run)
}

#[tactic(auto, unfolding(crate::specs::Body::body_of))]
fn check_body(player: Player, frames: u32, run: Run<'_>) -> [u8; BODY_LENGTH]
    ensures body { result ≡ body_of (Check player.number frames (words_bytes (words run.entry))) }
    ensures spells { length (words run.entry) ≡ digest_words
        → Spells result (Check player.number frames (words_bytes (words run.entry))) }
{
    spell_inputs(9, player, frames, PIECES, run)
}

/// Returns the run of a `Head`: the game's id and the room.
pub(crate) fn match_run(id: &[u8; 32], room: u64) -> [u8; 40]
    ensures { result ≡ id.now ++ big_bytes 8 room }
{
    let mut run = [0; 40];
    let (front, back) = run.split_at_mut(32);
    front.copy_from_slice(id);
    back.copy_from_slice(&room.to_be_bytes());
    run
}

/// Returns the body with these fields.
fn spell(kind: u8, player: Player, number: u32, start: u32, run: &[u8]) -> [u8; BODY_LENGTH]
    requires { length run.now ≤ 2 * longest_run }
    ensures { result ≡ field_bytes (record {
      kind = kind;
      player = player.number;
      number = number;
      start = start;
      run = run.now;
    }) }
{
    let mut body = [0; BODY_LENGTH];
    let (head, rest) = body.split_at_mut(RUN_PLACE);
    head.copy_from_slice(&head_of(kind, player, number, start, run.len()));
    rest[..run.len()].copy_from_slice(run);
    body
}

/// Returns the body with these fields and a run of inputs, two bytes each, in whichever version it came.
fn spell_inputs(
    kind: u8,
    player: Player,
    number: u32,
    start: u32,
    run: Run<'_>,
) -> [u8; BODY_LENGTH]
    ensures body { result ≡ field_bytes (record {
      kind = kind;
      player = player.number;
      number = number;
      start = start;
      run = words_bytes (words run.entry);
    }) }
    ensures few { length (words run.entry) ≤ longest_run }
    ensures sets { AreWords (words run.entry) }
{
    let mut body = [0; BODY_LENGTH];
    let (head, rest) = body.split_at_mut(RUN_PLACE);
    head.copy_from_slice(&head_of(kind, player, number, start, 2 * run.len()));
    put_inputs(run.iter(), rest);
    body
}

/// Writes inputs to the front of some bytes, two bytes each.
fn put_inputs(mut inputs: Inputs<'_>, out: &mut [u8])
    requires { 2 * length (words_left inputs) ≤ length out.old }
    ensures { out.new ≡ words_bytes (words_left inputs.entry)
        ++ drop (2 * length (words_left inputs.entry)) out.old }
{
    let Some(input) = inputs.next() else {
        return;
    };
    let (first, rest) = out.split_at_mut(2);
    first.copy_from_slice(&input.to_be_bytes());
    put_inputs(inputs, rest);
}

/// Returns the bytes before the run: the other fields, and how many words the run has.
pub(crate) fn head_of(
    kind: u8,
    player: Player,
    number: u32,
    start: u32,
    length: usize,
) -> [u8; RUN_PLACE]
    requires { length ≤ 2 * longest_run }
    ensures { result ≡ kind ∷ player.number ∷ big_bytes 4 number ++ big_bytes 4 start
        ++ big_bytes 2 (length / 2) }
{
    let [n0, n1, n2, n3] = number.to_be_bytes();
    let [s0, s1, s2, s3] = start.to_be_bytes();
    let [c0, c1] = ((length / 2) as u16).to_be_bytes();
    [kind, player.number, n0, n1, n2, n3, s0, s1, s2, s3, c0, c1]
}
