//! What an audit prints.

ghost use Rattle.std.specs.Prelude.{◌≡◌, ℕ, IfOk, OnOk};
ghost use Rattle.std.specs.Io.KnownBytes.{Appends};
ghost use Rattle.c8_game.specs.Rules.{Rules};
ghost use Rattle.c8_audit.specs.Journals.{Seen, AreOfGame, Stays};
ghost use Rattle.c8_audit.specs.Read.{all_seen};
ghost use Rattle.c8_audit.specs.Judged.{AreVerdicts};
ghost use Rattle.c8_audit.specs.Verdicts.{IsLeastCount};
ghost use Rattle.c8_audit.specs.declared.verdict.Verdicts.{Verdicts};
ghost use Rattle.c8_audit.specs.Audit.{fault_in};
ghost use Rattle.c8_texts.specs.Report.{Grows};
ghost use Rattle.c8_audit.specs.Printed.{entered_text, checks_text, agree_text, verdicts_text, unchecked_text, sentence_of, check_in, Tells};

use crate::agreed::is_dropped;
use crate::conclusion::conclusion_of;
use crate::count::digest_of;
use crate::entered::cut_of;
use crate::error::{AuditFault, name_of};
use crate::fault::Answer;
use crate::files::Gathered;
use crate::journal::{Journal, journal_of};
use crate::search::PLAYERS_END;
use crate::verdict::{Verdicts, judge};
use c8_game::{Game, Player};
use std::io;
use std::io::Write;

/// Judges the journals of a match, and prints all lines: of each player with the name of its file. Returns the first
/// verdict that is no; if none is, whether one is short. The error is the writer's.
pub fn write_audit<W: Write>(
    game: &Game,
    gathered: &Gathered,
    files: &[&str],
    out: &mut W,
) -> io::Result<Option<AuditFault>>
    requires of_game { AreOfGame game.now (all_seen gathered.now.journals) }
    requires one { (one : Seen) × Stays (all_seen gathered.now.journals) 1 one }
    ensures { IfOk result (λ fault. (verdicts : Verdicts)
        × AreVerdicts game.now (all_seen gathered.now.journals) verdicts
        × (fault ≡ fault_in verdicts)
        × Tells (W.contents out.old) (W.contents out.new) verdicts) }
{
    let journals = gathered.journals.as_slice();
    write_players(game, journals, files, out)?;
    write_empty(gathered.empty, out)?;
    write_dropped(journals, out)?;
    let verdicts = judge(game, journals);
    write_verdicts(journals, &verdicts, out)?;
    let fault = fault_of(&verdicts);
    write_end(game, journals, verdicts.count, fault.is_none(), out)?;
    write_sentence(&verdicts, out)?;
    Ok(fault)
}

/// Writes a line for each player of the game.
fn write_players<W: Write>(
    game: &Game,
    journals: &[Option<Journal>],
    files: &[&str],
    out: &mut W,
) -> io::Result<()>
    ensures { OnOk result (Grows (W.contents out.old) (W.contents out.new)) }
{
    for number in 1..game.players() + 1 {
        write_player(number, journal_of(journals, Player { number }), files, out)?;
    }
    Ok(())
}

/// Writes the line of a player's journal, or that it is not given.
fn write_player<W: Write>(
    number: u8,
    journal: Option<&Journal>,
    files: &[&str],
    out: &mut W,
) -> io::Result<()>
    ensures { OnOk result (Grows (W.contents out.old) (W.contents out.new)) }
{
    let Some(journal) = journal else {
        return write_unchecked(number, out);
    };
    let (records, epochs) = (journal.tally.records, journal.tally.epochs);
    let (now, confirmed) = (journal.first.ticks(), journal.first.confirmed());
    let file = name_of(files, journal.named.place);
    writeln!(
        out,
        "player {number} records {records} epochs {epochs} now {now} confirmed {confirmed} file {file}"
    )
}

/// Writes the line of a player whose journal is not given.
fn write_unchecked<W: Write>(number: u8, out: &mut W) -> io::Result<()>
    ensures { OnOk result (Appends (W.contents out.old) (W.contents out.new) (unchecked_text number)) }
{
    writeln!(out, "unchecked {number}")
}

/// Writes how many files keep no record, if there are any.
fn write_empty<W: Write>(empty: usize, out: &mut W) -> io::Result<()>
    ensures { OnOk result (Grows (W.contents out.old) (W.contents out.new)) }
{
    if empty == 0 {
        return Ok(());
    }
    writeln!(out, "empty {empty}")
}

/// Writes a line for each player who was dropped.
fn write_dropped<W: Write>(journals: &[Option<Journal>], out: &mut W) -> io::Result<()>
    requires { (rules : Rules) × AreOfGame rules (all_seen journals.now) }
    ensures { OnOk result (Grows (W.contents out.old) (W.contents out.new)) }
{
    for number in 1..PLAYERS_END {
        write_drop(journals, Player { number }, out)?;
    }
    Ok(())
}

/// Writes the line of a player, if player 1 dropped it.
fn write_drop<W: Write>(journals: &[Option<Journal>], player: Player, out: &mut W) -> io::Result<()>
    requires { (rules : Rules) × AreOfGame rules (all_seen journals.now) }
    ensures { OnOk result (Grows (W.contents out.old) (W.contents out.new)) }
{
    if !is_dropped(journals, player) {
        return Ok(());
    }
    let number = player.number;
    match cut_of(journals, player) {
        Some(cut) => writeln!(out, "dropped {number} at {cut}"),
        None => writeln!(out, "dropped {number}"),
    }
}

/// Writes a line for each verdict.
fn write_verdicts<W: Write>(
    journals: &[Option<Journal>],
    verdicts: &Verdicts,
    out: &mut W,
) -> io::Result<()>
    ensures { OnOk result ((check : ℕ) × Appends (W.contents out.old) (W.contents out.new)
        (verdicts_text verdicts.now check)) }
{
    write_entered(verdicts.entered, out)?;
    write_checks(verdicts.untrue, journals, out)?;
    write_agree(verdicts.agree, verdicts.count, out)
}

fn write_entered<W: Write>(entered: Answer, out: &mut W) -> io::Result<()>
    ensures { OnOk result (Appends (W.contents out.old) (W.contents out.new)
        (entered_text entered)) }
{
    match entered {
        Answer::Yes => writeln!(out, "entered yes"),
        Answer::Short(short) => {
            let (player, length) = (short.player.number, short.length);
            writeln!(out, "entered short {player} {length}")
        }
        Answer::No(fault) => {
            let (frame, one, other) = (fault.frame, fault.one.number, fault.other.number);
            writeln!(out, "entered no {one} {frame} {other}")
        }
    }
}

fn write_checks<W: Write>(
    untrue: Option<Player>,
    journals: &[Option<Journal>],
    out: &mut W,
) -> io::Result<()>
    ensures { OnOk result ((check : ℕ) × Appends (W.contents out.old) (W.contents out.new)
        (checks_text untrue check)) }
{
    match untrue {
        Some(player) => {
            let (number, check) = (player.number, check_of(journals, player));
            writeln!(out, "checks no {number} {check}")
        }
        None => writeln!(out, "checks yes"),
    }
}

fn write_agree<W: Write>(agree: Answer, count: u32, out: &mut W) -> io::Result<()>
    ensures { OnOk result (Appends (W.contents out.old) (W.contents out.new)
        (agree_text agree count)) }
{
    match agree {
        Answer::Yes => writeln!(out, "agree yes {count}"),
        Answer::Short(short) => {
            let (player, length) = (short.player.number, short.length);
            writeln!(out, "agree short {player} {length}")
        }
        Answer::No(fault) => {
            let (frame, one, other) = (fault.frame, fault.one.number, fault.other.number);
            writeln!(out, "agree no {frame} {one} {other}")
        }
    }
}

/// Writes the sentence at the end.
fn write_sentence<W: Write>(verdicts: &Verdicts, out: &mut W) -> io::Result<()>
    ensures { OnOk result (Appends (W.contents out.old) (W.contents out.new)
        (sentence_of verdicts.now)) }
{
    writeln!(out, "{}", conclusion_of(verdicts))
}

/// Returns the number of the record that ends the last checkpoint of a player's journal; 0 if there is none.
pub fn check_of(journals: &[Option<Journal>], player: Player) -> usize
    ensures { result ≡ check_in journals.now player.number }
{
    match journals.get(player.place()) {
        Some(Some(journal)) => journal.tally.last_check,
        _ => 0,
    }
}

/// Returns the first verdict that is no; if none is, whether one is short.
pub fn fault_of(verdicts: &Verdicts) -> Option<AuditFault>
    ensures { result ≡ fault_in verdicts.now }
{
    match (verdicts.entered, verdicts.untrue, verdicts.agree) {
        (Answer::No(_), _, _) => Some(AuditFault::Entered),
        (_, Some(_), _) => Some(AuditFault::Checks),
        (_, None, Answer::No(_)) => Some(AuditFault::Disagree),
        (Answer::Yes, None, Answer::Yes) => None,
        _ => Some(AuditFault::Short),
    }
}

/// Writes the line of the result, if all verdicts are yes.
fn write_end<W: Write>(
    game: &Game,
    journals: &[Option<Journal>],
    count: u32,
    is_yes: bool,
    out: &mut W,
) -> io::Result<()>
    requires one { (one : Seen) × Stays (all_seen journals.now) 1 one }
    requires count { IsLeastCount (all_seen journals.now) count }
    ensures { OnOk result (Grows (W.contents out.old) (W.contents out.new)) }
{
    if !is_yes {
        return Ok(());
    }
    write_result(game, journals, count, out)
}

/// Writes the line that two audits of one match have in common.
fn write_result<W: Write>(
    game: &Game,
    journals: &[Option<Journal>],
    count: u32,
    out: &mut W,
) -> io::Result<()>
    requires one { (one : Seen) × Stays (all_seen journals.now) 1 one }
    requires count { IsLeastCount (all_seen journals.now) count }
    ensures { OnOk result (Grows (W.contents out.old) (W.contents out.new)) }
{
    write!(out, "result {count} ")?;
    write_hex(&digest_of(game, journals, count), out)?;
    writeln!(out)
}

fn write_hex<W: Write>(bytes: &[u8], out: &mut W) -> io::Result<()>
    ensures { OnOk result (Grows (W.contents out.old) (W.contents out.new)) }
{
    for byte in bytes {
        write!(out, "{byte:02x}")?;
    }
    Ok(())
}
