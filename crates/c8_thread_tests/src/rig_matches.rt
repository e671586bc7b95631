//! Whole matches.
use crate::rig_gates::{Meeting, Turns};
use c8_game::Game;
use c8_rig::{Gathering, Note, rig};
use std::sync::atomic::Ordering;
use std::test::Fail;

/// Games of two, three and four players: V0 counts the loops, V1 those in which key 5 is down.
const GAMES: [&str; 3] = [
    "players 2\nipf 10\nframes 60\ndelay 0\nwindow 8\nseed 0\nmask1 ffff\nmask2 ffff\ncode 6205e2a1710170011202\n",
    "players 3\nipf 10\nframes 60\ndelay 1\nwindow 8\nseed 0\nmask1 ffff\nmask2 ffff\nmask3 ffff\ncode 6205e2a1710170011202\n",
    "players 4\nipf 10\nframes 60\ndelay 2\nwindow 8\nseed 0\nmask1 ffff\nmask2 ffff\nmask3 ffff\nmask4 ffff\ncode 6205e2a1710170011202\n",
];

pub(crate) fn games() -> &'static [&'static str] {
    &GAMES
}

const TURNS: u16 = 200;

/// No worker makes its second turn before each has made its first, and all make theirs.
#[test]
fn workers_overlap(rt: HostRuntime) -> Result<(), Fail> {
    let game = Game::read(rt.alloc(), GAMES[1].as_bytes())?;
    let gate = Meeting::new(&rt, 3);
    let gathering = rig(&rt, rt.alloc(), &game, 7, 2, &gate)?;
    assert!(rt; gate.turns() == 6);
    assert!(rt; matches!(gathering, Gathering::Gathered { .. }));
    Ok(())
}

/// How many notes of a log the player at a place has.
fn notes_of(log: &[Note], place: usize) -> u64 {
    let mut notes: u64 = 0;
    for note in log {
        if usize::from(note.act.seat().number) == place.saturating_add(1) {
            notes = notes.wrapping_add(1);
        }
    }
    notes
}

/// A gate that lets each worker make 100 turns ends all of them after these, and knows how many notes each player has.
#[test]
fn a_gate_ends_its_workers_and_counts_their_notes(rt: HostRuntime) -> Result<(), Fail> {
    let game = Game::read(rt.alloc(), GAMES[2].as_bytes())?;
    let gate = Turns::new(100);
    let gathering = rig(&rt, rt.alloc(), &game, 7, TURNS, &gate)?;
    let Gathering::Gathered { log, .. } = gathering else {
        return Err(Fail::new("torn"));
    };
    assert!(rt; gate.made.load(Ordering::SeqCst) == 400);
    for place in 0..4 {
        assert!(rt; gate.notes(place) == notes_of(&log, place) && gate.notes(place) > 1);
    }
    Ok(())
}

/// A gate that lets no worker make a turn counts the note of each opening.
#[test]
fn each_opening_is_counted(rt: HostRuntime) -> Result<(), Fail> {
    let game = Game::read(rt.alloc(), GAMES[2].as_bytes())?;
    let gate = Turns::new(0);
    let _gathering = rig(&rt, rt.alloc(), &game, 7, TURNS, &gate)?;
    for place in 0..4 {
        assert!(rt; gate.notes(place) == 1);
    }
    Ok(())
}
