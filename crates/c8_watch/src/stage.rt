//! The two threads of a watcher: the caller's makes the turns, and one looks at the board.
ghost use Rattle.std.specs.Prelude.{◌≡◌, ◌≤◌, ℕ, IfOk};
ghost use Rattle.c8_watch.specs.Published.{MayShow};
ghost use Rattle.c8_watch.specs.Turns.{AreTurns};

use crate::arguments::WatchAsked;
use crate::drawing::Drawing;
use crate::worker::{Picture, open_watch_board, watch_worker};
use c8_live::{Board, Pen, Viewer};
use c8_net::{Onlooker, Pace, VIEWER_PAUSE};
use c8_spectator::Spectator;
use c8_transport::{Wire, WireFailed, Worker};
use std::alloc::{AllocError, Global};
use std::io::Write;
use std::sync::Wait;
use std::thread;
use std::thread::Threads;
use std::time::{Clock, Duration};

/// A board that shows a spectator's rows, with its pen and one viewer.
#[derive(Drop)]
pub(crate) struct Stage {
    board: Board,
    pen: Pen,
    viewer: Viewer,
    ghost writes: { pen.board ≡ board },
    ghost watches: { viewer.board ≡ board },
}

/// The system starts no thread.
#[derive(Clone, Copy)]
pub(crate) struct NoThread;

/// What the two threads share.
#[derive(Drop)]
struct Shared<'r, R> {
    board: Board,
    pace: Pace<'r, R>,
}

impl Stage {
    /// Opens a board with one viewer. The error is that memory ran out.
    pub(crate) fn open(alloc: Global, spectator: &Spectator<'_>) -> Result<Stage, AllocError>
        ensures { IfOk result (λ stage. MayShow spectator.now stage.pen) }
    {
        let (board, pen, mut viewers) = open_watch_board(alloc, spectator, 1)?;
        let Some(viewer) = viewers.pop() else {
            unreachable!();
        };
        Ok(Stage { board, pen, viewer })
    }

    /// Watches over a wire, until it has every row, its turns are made, the viewer has asked for the end, or the wire
    /// fails. Both threads are then joined. If the system starts no thread, no turn is made.
    pub(crate) fn watch<'g, R, W, O, P>(
        self,
        rt: &R,
        asked: &WatchAsked<'_>,
        spectator: Spectator<'g>,
        wire: W,
        out: &mut O,
        more: &mut P,
    ) -> Result<(Spectator<'g>, Result<u64, WireFailed>), NoThread>
    where
        R: Clock + Threads + Wait + Sync,
        W: Wire + Drop,
        O: Write,
        P: Picture,
        requires { MayShow spectator self.pen }
        ensures { IfOk result (λ r. (n : ℕ) × (last : W) × n ≤ asked.now.turns × IfOk r.1 (λ made. made ≡ n)
            × AreTurns W.Wire n spectator.entry r.0 wire last) }
    {
        let Stage { board, pen, viewer } = self;
        let shared = Shared {
            board,
            pace: Pace::new(rt, None),
        };
        let onlooker = Onlooker {
            board: &shared.board,
            viewer,
        };
        let common = &shared;
        thread::scope(
            thread::scope_env(),
            rt,
            |scope| -> Result<(Spectator<'_>, Result<u64, WireFailed>), NoThread>
                requires board { pen.board ≡ common.now.board }
                requires shows { MayShow spectator pen }
                ensures { IfOk result (λ r. (n : ℕ) × (last : W) × n ≤ asked.entry.now.turns
                    × IfOk r.1 (λ made. made ≡ n) × AreTurns W.Wire n spectator.entry r.0 wire last) }
            {
                let viewer = scope.spawn(move || look_on(rt, asked.stop, onlooker, &common.pace));
                if viewer.is_err() {
                    return Err(NoThread);
                }
                Ok(make_turns(rt, asked, spectator, wire, pen, out, more, common))
            },
        )
    }
}

/// Runs the caller's thread: the turns, and the picture.
fn make_turns<'g, R, W, O, P>(
    rt: &R,
    asked: &WatchAsked<'_>,
    spectator: Spectator<'g>,
    wire: W,
    pen: Pen,
    out: &mut O,
    more: &mut P,
    shared: &Shared<'_, R>,
) -> (Spectator<'g>, Result<u64, WireFailed>)
where
    R: Clock,
    W: Wire + Drop,
    O: Write,
    P: Picture,
    requires board { pen.board ≡ shared.now.board }
    requires shows { MayShow spectator pen }
    ensures { (n : ℕ) × (last : W) × n ≤ asked.now.turns × IfOk result.1 (λ made. made ≡ n)
        × AreTurns W.Wire n spectator.entry result.0 wire last }
{
    let Shared { board, pace } = shared;
    let (mut spectator, mut wire, mut pen) = (spectator, wire, pen);
    let frames = spectator.game().frames();
    let mut drawing = Drawing::new(rt, out, asked.screen, asked.seat, frames, more);
    let turns = watch_worker(
        &mut spectator,
        &mut wire,
        board,
        &mut pen,
        &mut drawing,
        asked.turns,
        pace,
    );
    drawing.end();
    pace.end(Worker::Game);
    (spectator, turns)
}

/// Runs the viewer's thread until the turns are over. It asks for the end once the watcher has the frames of `--stop`.
fn look_on<R: Clock + Wait>(
    rt: &R,
    enough: Option<u64>,
    onlooker: Onlooker<'_>,
    pace: &Pace<'_, R>,
) {
    let mut onlooker = onlooker;
    for _ in rt.forever() {
        if pace.is_game_over() {
            break;
        }
        pace.see(onlooker.look(enough));
        thread::sleep(rt, Duration::from_millis(VIEWER_PAUSE));
    }
}
