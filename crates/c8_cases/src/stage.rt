//! All players' peers.
use crate::calls::{Letter, call, deliver, kind_in, say, show};
use crate::node::Node;
use crate::slots::{add_slot, journal, place_in};
use crate::watchers::{Watchers, say_show, watcher_in};
use c8_disk::MemDisk;
use c8_game::{Game, Player};
use c8_log::SLOT_LENGTH;
use c8_part_cases::{
    Answers, Desk, arm_in, bytes_in, count_in, needed, number_in, player_in, size_in, unreadable,
    write_at,
};
use c8_peer::{Kind, Peer};
use c8_wire::Watcher;
use std::alloc::{AllocError, Global};
use std::io;

/// The room of a match, unless a command names another.
const ROOM: u64 = 0x0102030405060708;

/// The nodes of all players, player 1's first, and what has been said.
#[derive(Drop)]
pub(crate) struct Stage<'g> {
    alloc: Global,
    game: Option<&'g Game>,
    other: Option<&'g Game>,
    nodes: Vec<Node<'g>>,
    letters: Vec<Letter>,
    desk: Desk<'g>,
    watchers: Watchers<'g>,
}

impl<'g> Stage<'g> {
    /// A stage without peers and disks.
    pub(crate) fn new(
        alloc: Global,
        game: Option<&'g Game>,
        other: Option<&'g Game>,
    ) -> Result<Stage<'g>, AllocError> {
        let mut nodes = Vec::new(alloc);
        for _ in 0..4 {
            nodes.push(Node::empty())?;
        }
        Ok(Stage {
            alloc,
            game,
            other,
            nodes,
            letters: Vec::new(alloc),
            desk: Desk::new(alloc, game),
            watchers: Watchers::empty(),
        })
    }

    /// Does what a command says. The error is that it cannot be read, or that memory ran out.
    pub(crate) fn perform(
        &mut self,
        words: &[&str],
        block: &[&[u8]],
        out: &mut Answers,
    ) -> io::Result<()> {
        let [verb, rest @ ..] = words else {
            return Err(unreadable());
        };
        match *verb {
            "game" => self.judge_game(block, out),
            "why" => out.explain(),
            "watch" | "show" | "seen" => self.watch(words, out),
            "disk" => match rest {
                [at, capacity, calls] if player_in(at).is_ok() => {
                    self.put(player_in(at)?, count_in(capacity)?, count_in(calls)?)
                }
                _ => self.desk.perform(words, block, out),
            },
            _ if is_of_seats(verb) => self.perform_seated(verb, rest, block, out),
            _ => self.desk.perform(words, block, out),
        }
    }

    /// Does what a command says of a player or a watcher.
    fn perform_seated(
        &mut self,
        verb: &str,
        words: &[&str],
        block: &[&[u8]],
        out: &mut Answers,
    ) -> io::Result<()> {
        let [at, rest @ ..] = words else {
            return Err(unreadable());
        };
        if let Ok(seat) = watcher_in(at) {
            return self.perform_watching(verb, seat, rest, out);
        }
        match verb {
            "open" | "carry" | "say" | "deliver" => {
                self.perform_at(verb, player_in(at)?, rest, block, out)
            }
            _ => self.perform_alone(verb, player_in(at)?, rest, block, out),
        }
    }

    /// Does what a command says of a watcher that is open.
    fn perform_watching(
        &mut self,
        verb: &str,
        seat: Watcher,
        words: &[&str],
        out: &mut Answers,
    ) -> io::Result<()> {
        match (verb, words) {
            ("deliver", ["said", number, change @ ..]) => {
                let letter = self.said(size_in(number)?, change)?;
                self.watchers.hear(seat, letter.bytes(), out)
            }
            _ => self.watchers.call(verb, seat, words, out),
        }
    }

    /// Opens a watcher, or keeps what player 1 shows it or what it acknowledges.
    fn watch(&mut self, words: &[&str], out: &mut Answers) -> io::Result<()> {
        let letter = match words {
            ["watch", seat] => {
                let (alloc, game) = (self.alloc, needed(self.game)?);
                return self.watchers.open(alloc, game, ROOM, watcher_in(seat)?);
            }
            ["show", at, seat] => {
                let seat = watcher_in(seat)?;
                match self.peer(player_in(at)?) {
                    Some(peer) => say_show(peer, seat, out)?,
                    None => return out.tell("no peer"),
                }
            }
            ["seen", seat] => self.watchers.seen(watcher_in(seat)?, out)?,
            _ => return Err(unreadable()),
        };
        self.keep(letter, out)
    }

    /// Keeps a datagram and prints it, if there is one.
    fn keep(&mut self, letter: Option<Letter>, out: &mut Answers) -> io::Result<()> {
        if let Some(letter) = letter {
            self.letters.push(letter)?;
            show(&letter, self.letters.len(), out)?;
        }
        Ok(())
    }

    /// Does what a command says of a player, and perhaps of another one.
    fn perform_at(
        &mut self,
        verb: &str,
        at: Player,
        rest: &[&str],
        block: &[&[u8]],
        out: &mut Answers,
    ) -> io::Result<()> {
        match (verb, rest) {
            ("open", []) => self.open(at, self.game, ROOM, out),
            ("open", ["other"]) => self.open(at, self.other, ROOM, out),
            ("open", ["room", room]) => self.open(at, self.game, number_in(room)?, out),
            ("carry", [to, kind @ ..]) => self.carry(at, player_in(to)?, kind_in(kind)?, out),
            ("say", [to, kind @ ..]) => self.say(at, player_in(to)?, kind_in(kind)?, out),
            ("deliver", ["said", number, change @ ..]) => {
                let letter = self.said(size_in(number)?, change)?;
                self.give(at, letter.bytes(), out)
            }
            ("deliver", bytes) => {
                let bytes = bytes_in(self.alloc, bytes, block, 0)?;
                self.give(at, &bytes, out)
            }
            _ => Err(unreadable()),
        }
    }

    /// Does what a command says of a player's disk, or what its peer is asked.
    fn perform_alone(
        &mut self,
        verb: &str,
        at: Player,
        rest: &[&str],
        block: &[&[u8]],
        out: &mut Answers,
    ) -> io::Result<()> {
        let alloc = self.alloc;
        let Some(node) = self.nodes.get_mut(at.place()) else {
            return Err(unreadable());
        };
        match (verb, rest) {
            ("write", [place, bytes @ ..]) => {
                let place = place_in(place)?;
                write_at(node.bare()?, place, &bytes_in(alloc, bytes, block, 0)?, out)
            }
            ("add", bytes) => {
                let bytes = bytes_in(alloc, bytes, block, SLOT_LENGTH)?;
                add_slot(node.bare()?, &bytes, out)
            }
            ("arm", how) => Ok(node.arm(arm_in(how)?)),
            ("length", []) => out.tell(node.image().len()),
            ("journal", which) => journal(node.image(), which, out),
            _ => call_node(node, verb, rest, out),
        }
    }

    /// Prints why a text is no game.
    fn judge_game(&self, block: &[&[u8]], out: &mut Answers) -> io::Result<()> {
        match Game::read(self.alloc, &text_of(self.alloc, block)?) {
            Ok(_) => Ok(()),
            Err(error) => out.refuse("game", error.number(), error.name(), error),
        }
    }

    /// The open peer of a player.
    fn peer(&mut self, at: Player) -> Option<&mut Peer<'g, MemDisk>> {
        match self.nodes.get_mut(at.place()) {
            Some(node) => node.peer.as_mut(),
            None => None,
        }
    }

    fn node(&mut self, at: Player) -> Option<&mut Node<'g>> {
        self.nodes.get_mut(at.place())
    }

    fn put(&mut self, at: Player, capacity: u32, calls: u32) -> io::Result<()> {
        let disk = MemDisk::new(self.alloc, capacity, calls)?;
        match self.node(at) {
            Some(node) => {
                node.put(disk);
                Ok(())
            }
            None => Err(unreadable()),
        }
    }

    /// Opens a player's peer.
    fn open(
        &mut self,
        at: Player,
        game: Option<&'g Game>,
        room: u64,
        out: &mut Answers,
    ) -> io::Result<()> {
        let alloc = self.alloc;
        match (game, self.node(at)) {
            (Some(game), Some(node)) => node.open(alloc, game, (at, room), out),
            _ => Err(unreadable()),
        }
    }

    /// What a player says to another. None where that is refused, or the player has no peer.
    fn letter(
        &mut self,
        from: Player,
        to: Player,
        kind: Kind,
        out: &mut Answers,
    ) -> io::Result<Option<Letter>> {
        match self.peer(from) {
            Some(peer) => say(peer, to, kind, out),
            None => {
                out.tell("no peer")?;
                Ok(None)
            }
        }
    }

    fn say(&mut self, from: Player, to: Player, kind: Kind, out: &mut Answers) -> io::Result<()> {
        let letter = self.letter(from, to, kind, out)?;
        self.keep(letter, out)
    }

    /// Delivers what a player says to another at once.
    fn carry(&mut self, from: Player, to: Player, kind: Kind, out: &mut Answers) -> io::Result<()> {
        match self.letter(from, to, kind, out)? {
            Some(letter) => self.give(to, letter.bytes(), out),
            None => Ok(()),
        }
    }

    /// The datagram with a number, as it was said or with other bytes at a place.
    fn said(&self, number: usize, change: &[&str]) -> io::Result<Letter> {
        let Some(letter) = self.letters.get(number.wrapping_sub(1)).copied() else {
            return Err(unreadable());
        };
        match change {
            [] => Ok(letter),
            ["with", place, bytes @ ..] => {
                let bytes = bytes_in(self.alloc, bytes, &[], 0)?;
                Ok(letter.with(size_in(place)?, &bytes))
            }
            _ => Err(unreadable()),
        }
    }

    fn give(&mut self, to: Player, bytes: &[u8], out: &mut Answers) -> io::Result<()> {
        match self.peer(to) {
            Some(peer) => deliver(peer, bytes, out),
            None => out.tell("no peer"),
        }
    }
}

/// Closes a player's disk or crashes it, or makes a call of the peer.
fn call_node(node: &mut Node<'_>, verb: &str, words: &[&str], out: &mut Answers) -> io::Result<()> {
    match (verb, words) {
        ("close", []) => Ok(node.close()),
        ("crash", [pick]) => Ok(node.crash(number_in(pick)?)),
        _ => match &mut node.peer {
            Some(peer) => call(peer, verb, words, out),
            None => out.tell("no peer"),
        },
    }
}

/// Whether a verb is of a player's disk or peer, or of a watcher.
fn is_of_seats(verb: &str) -> bool {
    match verb {
        "open" | "carry" | "say" | "deliver" | "look" | "begin_again" => true,
        "write" | "add" | "close" | "crash" | "arm" | "length" | "journal" => true,
        "tick" | "leave" | "decide" | "checkpoint" => true,
        _ => false,
    }
}

/// The text of a block, without what its lines are indented by.
pub(crate) fn text_of(alloc: Global, block: &[&[u8]]) -> Result<Vec<u8>, AllocError> {
    let mut text = Vec::new(alloc);
    for line in block {
        text.extend_from_slice(line.strip_prefix(b"  ".as_slice()).unwrap_or(*line))?;
        text.push(b'\n')?;
    }
    Ok(text)
}
