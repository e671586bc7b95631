//! The parts in hand, and the commands that use them.
use crate::answers::Answers;
use crate::datagrams::{call_links, show, show_data};
use crate::disks::Hand;
use crate::inputs::Inputs;
use crate::machines::{call_machine, show_game};
use crate::records::{body_in, replay_in};
use crate::words::{bytes_in, count_in, needed, player_in, unreadable};
use c8_game::Game;
use c8_hand::Links;
use c8_machine::Machine;
use std::alloc::Global;
use std::io;

/// The parts in hand.
#[derive(Drop)]
pub struct Desk<'g> {
    alloc: Global,
    game: Option<&'g Game>,
    hand: Hand,
    links: Option<Links>,
    machine: Option<Machine>,
    inputs: Inputs<'g>,
}

impl<'g> Desk<'g> {
    /// A desk with nothing on it, in a game if there is one.
    pub fn new(alloc: Global, game: Option<&'g Game>) -> Desk<'g> {
        Desk {
            alloc,
            game,
            hand: Hand::empty(),
            links: None,
            machine: None,
            inputs: Inputs::empty(),
        }
    }

    /// Does what a command says. The error is that it cannot be read, or that memory ran out.
    pub fn perform(
        &mut self,
        words: &[&str],
        block: &[&[u8]],
        out: &mut Answers,
    ) -> io::Result<()> {
        let alloc = self.alloc;
        let [verb, rest @ ..] = words else {
            return Err(unreadable());
        };
        match *verb {
            "disk" => self.hand.disk(alloc, rest, block, out),
            "log" => self.hand.log(alloc, rest, block, out),
            "body" => body_in(rest, out),
            "view" => show(&bytes_in(alloc, rest, block, 0)?, out),
            "data" => show_data(alloc, rest, block, out),
            _ => self.perform_in(needed(self.game)?, (*verb, rest), block, out),
        }
    }

    /// Does what a command says that needs a game.
    fn perform_in(
        &mut self,
        game: &'g Game,
        (verb, rest): (&str, &[&str]),
        block: &[&[u8]],
        out: &mut Answers,
    ) -> io::Result<()> {
        let alloc = self.alloc;
        match verb {
            "wire" | "id" | "session" => show_game(game, (verb, rest), out),
            "replay" => replay_in(alloc, game, rest, block, &mut self.hand, out),
            "known" => self.inputs.known(alloc, game, rest, out),
            "window" => self.inputs.window(game, rest, out),
            "roll" => self.inputs.roll(alloc, game, rest, out),
            "machine" => self.machine(game, rest, out),
            "links" => self.link(game, rest),
            "hear" | "link" => call_links(game, needed(self.links.as_mut())?, (verb, rest), out),
            _ => Err(unreadable()),
        }
    }

    /// Starts a machine, or makes a call of it.
    fn machine(&mut self, game: &'g Game, words: &[&str], out: &mut Answers) -> io::Result<()> {
        if let ["start"] = words {
            self.machine = Some(Machine::start(game));
            return Ok(());
        }
        call_machine(game, needed(self.machine.as_mut())?, words, out)
    }

    /// Makes the links of a player in an epoch.
    fn link(&mut self, game: &'g Game, words: &[&str]) -> io::Result<()> {
        let [me, "epoch", epoch] = words else {
            return Err(unreadable());
        };
        self.links = Some(Links::new(player_in(me)?, game, 0, count_in(epoch)?));
        Ok(())
    }
}
