//! Whether a body is the spelling of a record. No spelling is written for it: most bodies are read and never written again.
ghost use Rattle.std.specs.Prelude.{◌≡◌, ◌≤◌, ◌*◌, ◌↔◌, true, length, replicate};
ghost use Rattle.c8_game.specs.declared.wire.WireVersion.TheVariants as versions;
ghost use Rattle.c8_wire.specs.Lent.{version_of, words};
ghost use Rattle.c8_wire.specs.Packet.{AreWords};
ghost use Rattle.c8_wire.specs.Sizes.{longest_run};
ghost use Rattle.c8_wire.specs.Spelling.{words_bytes};
ghost use Rattle.c8_known.specs.Journal.{Head, Own};
ghost use Rattle.c8_record.specs.Body.{field_bytes, body_of, IsForm, Spells};
ghost use Rattle.c8_record.specs.Lent.{value_of, IsComplete, IsOfWords};

use crate::checks::PIECES;
use crate::record::{RUN_PLACE, Record};
use crate::writing::{head_of, match_run};
use c8_game::{Keys, Player};
use c8_log::BODY_LENGTH;
use c8_wire::Run;

/// Returns whether a body is the spelling of a record in version 1.
#[tactic(auto, unfolding(crate::specs::Body::body_of))]
pub(crate) fn is_body_of(body: &[u8; BODY_LENGTH], lent: &Record<'_>) -> bool
    requires words { IsOfWords lent.now }
    ensures is { (result ≡ true) ↔ (body.now ≡ body_of (value_of lent.now)) }
    ensures spells { result ≡ true → IsComplete lent.now → Spells body.now (value_of lent.now) }
{
    match *lent {
        Record::Head {
            player,
            form,
            id,
            room,
        } => is_head(body, player, form, id, room),
        Record::Epoch {
            player,
            number,
            form,
        } => has_fields(body, 2, player, number, form, &[]),
        Record::Own {
            player,
            start,
            keys,
        } => is_own(body, player, start, keys),
        Record::Got { player, start, run } => has_fields(body, 4, player, 0, start, spelled(run)),
        Record::Freeze { player } => has_fields(body, 5, player, 0, 0, &[]),
        Record::Leave { player } => has_fields(body, 6, player, 0, 0, &[]),
        Record::Cut {
            player,
            length,
            start,
            run,
        } => has_fields(body, 7, player, length, start, spelled(run)),
        Record::State {
            player,
            frames,
            piece,
            run,
        } => has_fields(body, 8, player, frames, piece, spelled(run)),
        Record::Check {
            player,
            frames,
            run,
        } => has_fields(body, 9, player, frames, PIECES, spelled(run)),
    }
}

#[tactic(auto, unfolding(crate::specs::Body::body_of))]
fn is_head(body: &[u8; BODY_LENGTH], player: Player, form: u32, id: &[u8; 32], room: u64) -> bool
    ensures is { (result ≡ true) ↔ (body.now ≡ body_of (Head player.number form id.now room)) }
    ensures spells { result ≡ true → IsForm form
        → Spells body.now (Head player.number form id.now room) }
{
    has_fields(body, 1, player, 1, form, &match_run(id, room))
}

#[tactic(auto, unfolding(crate::specs::Body::body_of))]
fn is_own(body: &[u8; BODY_LENGTH], player: Player, start: u32, keys: Keys) -> bool
    ensures is { (result ≡ true) ↔ (body.now ≡ body_of (Own player.number start keys.0)) }
    ensures spells { result ≡ true → Spells body.now (Own player.number start keys.0) }
{
    has_fields(body, 3, player, 0, start, &keys.0.to_be_bytes())
}

/// Returns the bytes of a run in version 1: two for each input.
fn spelled(run: Run<'_>) -> &[u8]
    requires { version_of run ≡ versions.One }
    ensures bytes { result.now ≡ words_bytes (words run.entry) }
    ensures short { length result.now ≤ 2 * longest_run }
    ensures few { length (words run.entry) ≤ longest_run }
    ensures sets { AreWords (words run.entry) }
{
    // For the proof: a run has few inputs, each of 16 keys.
    let _count = run.len();
    run.bytes()
}

/// Returns whether a body has these fields, and zeros after the run.
fn has_fields(
    body: &[u8; BODY_LENGTH],
    kind: u8,
    player: Player,
    number: u32,
    start: u32,
    run: &[u8],
) -> bool
    requires { length run.now ≤ 2 * longest_run }
    ensures { (result ≡ true) ↔ (body.now ≡ field_bytes (record {
      kind = kind;
      player = player.number;
      number = number;
      start = start;
      run = run.now;
    })) }
{
    let (head, rest) = body.split_at(RUN_PLACE);
    let (front, back) = rest.split_at(run.len());
    is_same(head, &head_of(kind, player, number, start, run.len()))
        && is_same(front, run)
        && is_zero(back)
}

/// Returns whether at most 131 bytes are all zero.
fn is_zero(bytes: &[u8]) -> bool
    requires { length bytes.now ≤ 131 }
    ensures { (result ≡ true) ↔ (bytes.now ≡ replicate (length bytes.now) 0) }
{
    let zeros = [0; BODY_LENGTH - RUN_PLACE];
    is_same(bytes, &zeros[..bytes.len()])
}

fn is_same(bytes: &[u8], others: &[u8]) -> bool
    ensures { (result ≡ true) ↔ (bytes.now ≡ others.now) }
{
    bytes == others
}
