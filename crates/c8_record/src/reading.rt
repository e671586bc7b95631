//! Reads a record from a body.
ghost use Rattle.std.specs.Prelude.{◌≡◌, ◌<◌, ◌*◌, ◌↔◌, true, take, drop, MatchOption, IfSome};
ghost use Rattle.c8_wire.specs.Lent.{version_of, words, spelled};
ghost use Rattle.c8_game.specs.declared.wire.WireVersion.TheVariants as versions;
ghost use Rattle.c8_wire.specs.Reading.{number_at};
ghost use Rattle.c8_known.specs.Journal as journals;
ghost use Rattle.c8_record.specs.Body.{bytes_at, Spells, record_of, run_place, run_at, IsForm};
ghost use Rattle.c8_record.specs.Lent.{value_of, IsSliceOf, IsComplete, IsOfWords};
ghost use Rattle.c8_wire.specs.Spelling.{words_bytes};
ghost use Rattle.c8_wire.specs.Sizes.{longest_run};

use crate::record::{DIGEST_WORDS, RUN_PLACE, Record};
use crate::spelled::is_body_of;
use c8_game::{Keys, Player};
use c8_log::BODY_LENGTH;
use c8_wire::{LONGEST_RUN, Run, u16_at, u32_at, u64_at};

/// Reads a record in place; the result borrows from the body. Returns `None` if the body is not the
/// spelling of a record. It does not check whether the rules allow the record.
pub fn view(body: &[u8; BODY_LENGTH]) -> Option<Record<'_>>
    ensures value { MatchOption result ((r : journals.Record) → Spells body.now r → ⊥)
        (λ lent. Spells body.now (value_of lent)) }
    ensures slice { IfSome result (λ lent. IsSliceOf body.now lent) }
    ensures words { IfSome result (λ lent. IsOfWords lent) }
{
    let lent = read(body)?;
    if !is_complete(&lent) || !is_body_of(body, &lent) {
        return None;
    }
    Some(lent)
}

/// Returns the record that the body spells if it spells one. Returns `None` if a field alone shows that
/// it spells none.
#[tactic(auto, unfolding(crate::specs::Body::record_of))]
fn read(body: &[u8; BODY_LENGTH]) -> Option<Record<'_>>
    ensures value { MatchOption result ((r : journals.Record) → Spells body.now r → ⊥)
        (λ lent. value_of lent ≡ record_of body.now) }
    ensures slice { IfSome result (λ lent. IsSliceOf body.now lent) }
    ensures words { IfSome result (λ lent. IsOfWords lent) }
{
    let kind = body[0];
    let player = Player::new(body[1])?;
    let number = u32_at(body, 2);
    let start = u32_at(body, 6);
    let run = run_of(body)?;
    match kind {
        1 => Some(Record::Head {
            player,
            form: start,
            id: id_of(body),
            room: u64_at(body, 44),
        }),
        2 => Some(Record::Epoch {
            player,
            number,
            form: start,
        }),
        3 => Some(Record::Own {
            player,
            start,
            keys: Keys(u16_at(body, RUN_PLACE)),
        }),
        4 => Some(Record::Got { player, start, run }),
        5 => Some(Record::Freeze { player }),
        6 => Some(Record::Leave { player }),
        7 => Some(Record::Cut {
            player,
            length: number,
            start,
            run,
        }),
        8 => Some(Record::State {
            player,
            frames: number,
            piece: start,
            run,
        }),
        9 => Some(Record::Check {
            player,
            frames: number,
            run,
        }),
        _ => None,
    }
}

/// Returns the game's id in the body of a `Head`.
fn id_of(body: &[u8; BODY_LENGTH]) -> &[u8; 32]
    ensures { result.now ≡ take 32 (drop run_place body.now) }
{
    let (_, rest) = body.split_at(RUN_PLACE);
    match rest.first_chunk() {
        Some(id) => id,
        None => unreachable!(),
    }
}

/// Returns the run in the body, or `None` if its count is above 64.
fn run_of(body: &[u8; BODY_LENGTH]) -> Option<Run<'_>>
    ensures slice { MatchOption result (longest_run < number_at 10 2 body.now)
        (λ run. spelled run ≡ take (2 * number_at 10 2 body.now) (drop run_place body.now)) }
    ensures words { IfSome result (λ run. words run ≡ run_at body.now) }
    ensures bytes { IfSome result (λ run. words_bytes (words run) ≡ bytes_at body.now) }
    ensures version { IfSome result (λ run. version_of run ≡ versions.One) }
{
    let count = usize::from(u16_at(body, 10));
    if count > LONGEST_RUN {
        return None;
    }
    let (_, rest) = body.split_at(RUN_PLACE);
    let (run, _) = rest.split_at(2 * count);
    Some(Run::new(run))
}

/// Returns whether the record has what its kind needs to be spelled.
fn is_complete(lent: &Record<'_>) -> bool
    ensures { (result ≡ true) ↔ IsComplete lent.now }
{
    match *lent {
        Record::Head { form, .. } | Record::Epoch { form, .. } => is_form(form),
        Record::Got { run, .. } => !run.is_empty(),
        Record::Check { run, .. } => run.len() == DIGEST_WORDS,
        _ => true,
    }
}

fn is_form(form: u32) -> bool
    ensures { (result ≡ true) ↔ IsForm form }
{
    form == 0 || form == 2
}
