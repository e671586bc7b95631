//! The turns of a watcher, over a wire of the test.
ghost use Rattle.std.specs.Prelude.{◌≡◌};

use crate::watching::letter::Letter;
use crate::watching::played::{FIVE, ROOM, game_of, row_of};
use c8_game::Game;
use c8_live::{Board, Viewer};
use c8_machine::Machine;
use c8_spectator::Spectator;
use c8_transport::{Gate, LONGEST_PACKET, Traffic, Wire, WireFailed, Worker};
use c8_watch::{Picture, open_watch_board, watch_worker};
use c8_wire::Seat;
use std::alloc::Global;
use std::sync::atomic::{AtomicU64, Ordering};
use std::test::Fail;

/// A wire on which rows of a match wait, one a packet, and which checks what is sent.
#[derive(Drop)]
struct Way<'g> {
    game: &'g Game,
    /// How many packets wait.
    waiting: u32,
    /// How many more packets wait once something is sent.
    a_turn: u32,
    /// The frame of the row that comes next.
    frame: u32,
    /// How many calls it serves before it fails.
    calls: u32,
    /// The counts that SEENs to player one have, in order.
    wanted: &'static [u32],
    /// How many of these were sent, unless something else was.
    sent: Option<usize>,
    traffic: Traffic,
}

/// The number of SEENs sent, after one more datagram.
fn sent_with(way: &Way<'_>, to: Seat, datagram: &[u8]) -> Option<usize> {
    let sent = way.sent?;
    let seen = Letter::seen(way.game, 5, *way.wanted.get(sent)?);
    if to.number == 1 && datagram == seen.bytes() {
        Some(sent.saturating_add(1))
    } else {
        None
    }
}

/// Serves one more call, or fails if none is left.
fn served(calls: &mut u32) -> Result<(), WireFailed> {
    if *calls == 0 {
        return Err(WireFailed::Closed);
    }
    *calls -= 1;
    Ok(())
}

impl<'g> Wire for Way<'g> {
    ghost sent = { λ way. way.traffic.sent.items };

    ghost received = { λ way. way.traffic.received.items };

    fn send(&mut self, to: Seat, datagram: &[u8]) -> Result<(), WireFailed> {
        served(&mut self.calls)?;
        self.sent = sent_with(self, to, datagram);
        self.waiting = self.waiting.saturating_add(self.a_turn);
        self.traffic.took(datagram);
        Ok(())
    }

    fn receive(&mut self, packet: &mut [u8]) -> Result<Option<usize>, WireFailed> {
        served(&mut self.calls)?;
        if self.waiting == 0 {
            return Ok(None);
        }
        self.waiting -= 1;
        let letter = Letter::show(self.game, 5, self.frame, 1);
        self.frame = self.frame.saturating_add(1);
        let bytes = letter.bytes();
        let size = bytes.len().min(LONGEST_PACKET);
        packet[..size].copy_from_slice(&bytes[..size]);
        self.traffic.gave(&packet[..size]);
        Ok(Some(size))
    }
}

/// Lets some turns begin, and counts those that end.
#[derive(Drop)]
struct Turns {
    most: u64,
    made: AtomicU64,
}

impl Gate for Turns {
    fn before(&self, _: Worker, turn: u64) -> bool {
        turn < self.most
    }

    fn after(&self, _: Worker, _: u64) {
        self.made.fetch_add(1, Ordering::SeqCst);
    }
}

/// Checks the machines that are shown, and asks for the end after some of them.
#[derive(Drop)]
struct Album<'b> {
    game: &'b Game,
    board: &'b Board,
    viewer: Viewer,
    /// After how many machines it asks.
    enough: usize,
    /// The counts of rows after which the machines are wanted, in order.
    wanted: &'static [u32],
    /// How many of these were shown, unless another one was.
    shown: Option<usize>,
    ghost looks: { viewer.board ≡ board.now },
}

/// The number of machines shown, after one more.
fn shown_with(album: &Album<'_>, machine: &Machine) -> Option<usize> {
    let shown = album.shown?;
    if *machine == after(album.game, *album.wanted.get(shown)?) {
        Some(shown.saturating_add(1))
    } else {
        None
    }
}

impl<'b> Picture for Album<'b> {
    fn show(&mut self, spectator: &Spectator<'_>) {
        self.shown = shown_with(self, spectator.shown());
        if self.shown == Some(self.enough) {
            self.board.ask_stop(&mut self.viewer);
        }
    }
}

/// The machine after this many rows of the match.
fn after(game: &Game, count: u32) -> Machine {
    let mut machine = Machine::start(game);
    for frame in 0..count {
        machine.frame(game, game.joined(&row_of(frame)));
    }
    machine
}

/// The turns of a watcher, and their result.
struct Row {
    /// How many packets come before each turn.
    a_turn: u32,
    /// How many calls the wire serves.
    calls: u32,
    /// How many turns are asked for.
    turns: u64,
    /// How many turns the gate lets begin.
    gate: u64,
    /// After how many pictures a viewer asks for the end.
    enough: usize,
    made: Result<u64, WireFailed>,
    /// How many rows there are at the end.
    rows: u32,
    /// The count of rows after each turn, which player 1 gets and the picture shows.
    seen: &'static [u32],
}

const ALL: u32 = 1000;

/// A match of five frames.
#[rattlefmt::skip]
static ROWS: [Row; 11] = [
    // it ends once it has all rows
    Row { a_turn: 1, calls: ALL, turns: 100, gate: 100, enough: 100, made: Ok(5), rows: 5, seen: &[1, 2, 3, 4, 5] },
    Row { a_turn: 2, calls: ALL, turns: 100, gate: 100, enough: 100, made: Ok(3), rows: 5, seen: &[2, 4, 5] },
    Row { a_turn: 9, calls: ALL, turns: 100, gate: 100, enough: 100, made: Ok(1), rows: 5, seen: &[5] },
    // after the last turn
    Row { a_turn: 1, calls: ALL, turns: 2, gate: 100, enough: 100, made: Ok(2), rows: 2, seen: &[1, 2] },
    Row { a_turn: 0, calls: ALL, turns: 3, gate: 100, enough: 100, made: Ok(3), rows: 0, seen: &[0, 0, 0] },
    Row { a_turn: 1, calls: ALL, turns: 0, gate: 100, enough: 100, made: Ok(0), rows: 0, seen: &[] },
    // when the gate ends it, and when a viewer asks for the end
    Row { a_turn: 1, calls: ALL, turns: 100, gate: 3, enough: 100, made: Ok(3), rows: 3, seen: &[1, 2, 3] },
    Row { a_turn: 1, calls: ALL, turns: 100, gate: 100, enough: 4, made: Ok(4), rows: 4, seen: &[1, 2, 3, 4] },
    // when the wire fails: at its first call, after a packet of the second turn, and when that turn sends a SEEN
    Row { a_turn: 1, calls: 0, turns: 100, gate: 100, enough: 100, made: Err(WireFailed::Closed), rows: 0, seen: &[] },
    Row { a_turn: 1, calls: 4, turns: 100, gate: 100, enough: 100, made: Err(WireFailed::Closed), rows: 2, seen: &[1] },
    Row { a_turn: 1, calls: 5, turns: 100, gate: 100, enough: 100, made: Err(WireFailed::Closed), rows: 2, seen: &[1] },
];

/// A match of 300 frames: the first turn leaves a packet for the second, which takes the last 44 rows.
#[rattlefmt::skip]
static CROWD: Row =
    Row { a_turn: 257, calls: ALL, turns: 2, gate: 100, enough: 100, made: Ok(2), rows: 300, seen: &[256, 300] };

fn rows() -> &'static [Row] {
    &ROWS
}

/// Whether the turns go as a row says.
fn goes(alloc: Global, game: &Game, row: &Row) -> bool {
    let Ok(mut spectator) = Spectator::open(alloc, game, ROOM, FIVE) else {
        return false;
    };
    let Ok((board, mut pen, mut viewers)) = open_watch_board(alloc, &spectator, 1) else {
        return false;
    };
    let Some(viewer) = viewers.pop() else {
        return false;
    };
    let mut album = Album {
        game,
        board: &board,
        viewer,
        enough: row.enough,
        wanted: row.seen,
        shown: Some(0),
    };
    let mut way = Way {
        game,
        waiting: row.a_turn,
        a_turn: row.a_turn,
        frame: 0,
        calls: row.calls,
        wanted: row.seen,
        sent: Some(0),
        traffic: Traffic::new(),
    };
    let gate = Turns {
        most: row.gate,
        made: AtomicU64::new(0),
    };
    let made = watch_worker(
        &mut spectator,
        &mut way,
        &board,
        &mut pen,
        &mut album,
        row.turns,
        &gate,
    );
    made == row.made
        && spectator.count() == row.rows
        && way.sent == Some(row.seen.len())
        && album.shown == Some(row.seen.len())
        && gate.made.load(Ordering::SeqCst) == row.seen.len() as u64
}

#[test]
fn a_watcher_makes_turns_until_it_ends(rt: HostRuntime) -> Result<(), Fail> {
    let game = game_of(rt.alloc(), 5, 1)?;
    for (place, row) in rows().iter().enumerate() {
        assert!(rt; goes(rt.alloc(), &game, row), "row {place}");
    }
    Ok(())
}

#[test]
fn a_turn_takes_256_packets(rt: HostRuntime) -> Result<(), Fail> {
    let game = game_of(rt.alloc(), 300, 2)?;
    assert!(rt; goes(rt.alloc(), &game, &CROWD));
    Ok(())
}
