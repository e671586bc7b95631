//! Facts for callers that belong to no single call: laws of key lines. Each is the contract of a function that does
//! nothing.
ghost use Rattle.std.specs.Prelude.{ℕ, List};
ghost use Rattle.c8_game.specs.Rules.{Rules};
ghost use Rattle.c8_game.specs.declared.row.Row.{Row};
ghost use Rattle.c8_texts.specs.KeyLines.{IsRunOf};
ghost use Rattle.c8_texts.specs.declared.lines.Played.{Played};
ghost use Rattle.c8_replay.specs.KeyText.{SpellRows};
ghost use Rattle.c8_replay.specs.Replay.{IsRunOfRows};

/// `play` of key lines that spell rows is the run of these rows.
pub fn key_lines_play_their_rows()
    ensures { (rules : Rules) (text : List ℕ) (rows : List Row) (played : Played)
        → SpellRows rules text rows → IsRunOfRows rules rows played
        → IsRunOf rules text played }
{}
