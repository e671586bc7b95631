//! A game that one person plays, with the keys of all players and without a network.

ghost use Rattle.std.specs.Prelude.{◌≡◌, ◌≤◌};
ghost use Rattle.c8_play.specs.Alone.{IsPlayedAlone, IsEndAlone};
ghost use Rattle.c8_play.specs.Desk.{IsSameDesk};

use crate::console::Console;
use crate::desk::Desk;
use c8_game::{Game, Row};
use c8_machine::{Keys, Machine};
use c8_terminal::{Chime, KeyRow};
use c8_texts::Played;
use std::time::Duration;

/// Plays a game at a desk, frame by frame: to its last frame, for `frames` frames, or until the person quits. The row below
/// the picture has the keys. Returns how many frames were played, and the machine of the serial run of the keys that were held
/// in them.
pub fn play_alone<C: Console>(
    game: &Game,
    desk: &mut Desk<C>,
    row: KeyRow,
    chime: Chime,
    frames: u64,
) -> Played
    ensures played { IsPlayedAlone C.Console game.now result desk.old desk.new }
    ensures few { result.frames ≤ frames }
    ensures ended { IsEndAlone game.now frames result desk.new }
{
    let (mut chime, mut below) = (chime, row);
    let mut played = Played {
        frames: 0,
        machine: Machine::start(game),
    };
    for frame in 0..game.frames() {
        if desk.has_left() || u64::from(frame) >= frames {
            break;
        }
        let now = heed(desk, &mut below);
        desk.sit_out();
        let keys = desk.begin();
        desk.entered();
        let held = Row { inputs: [keys; 4] };
        played.machine.frame(game, Keys::from(game.joined(&held)));
        played.frames = frame + 1;
        let bell = chime.bell(played.machine.tone());
        desk.show(played.machine.screen(), below.row(now, bell));
    }
    played
}

/// Passes on to the row what the person asked for, and returns the time.
fn heed<C: Console>(desk: &mut Desk<C>, row: &mut KeyRow) -> Duration
    ensures { IsSameDesk C.Console desk.old desk.new }
{
    if desk.take_spoilt() {
        row.forget();
    }
    if desk.take_wants_help() {
        row.remind();
    }
    desk.now()
}
