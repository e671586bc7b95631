//! What a peer keeps in memory and not in its journal.
ghost use Rattle.std.specs.Prelude.{◌≡◌, true, None};
ghost use Rattle.c8_wire.specs.Lent.{packet_of};
ghost use Rattle.c8_wire.specs.Saying.{head_value};
ghost use Rattle.c8_wire.specs.Seats.{are_seats};
ghost use Rattle.c8_wire.specs.declared.kinds.DatagramKind.TheVariants as wires;
ghost use Rattle.c8_hand.specs.Links.{refusal, head_to};
ghost use Rattle.c8_peer.specs.Asked.{wire_of};
ghost use Rattle.c8_peer.specs.State.{fresh_memory, with_seen};
ghost use Rattle.c8_peer.specs.checked.Verdicts.{memory_after, AcksWithin};

use crate::kind::Kind;
use crate::watchers::Watchers;
use c8_game::{Game, Player};
use c8_hand::Links;
use c8_known::Known;
use c8_round::{Chair, Stayer};
use c8_window::Window;
use c8_wire::{Datagram, DatagramKind, Head, Seat, Watcher};
use std::marker::Model;

/// What a peer loses with each opening.
#[derive(Debug, Drop)]
pub(crate) struct Memory {
    pub(crate) links: Links,
    pub(crate) window: Window,
    pub(crate) chair: Chair,
    pub(crate) stayer: Stayer,
    /// The machine of another peer differed.
    pub(crate) alarm: bool,
    pub(crate) watchers: Watchers,
}

impl Model for Memory {
    ghost use Rattle.c8_peer.specs.State as states;

    ghost Value = { states.Memory };

    ghost view = { λ m. record {
      links = m.links;
      acks = m.window;
      chair = m.chair;
      stayer = m.stayer;
      alarm = m.alarm;
      seen = m.watchers;
    } };
}

impl Memory {
    pub(crate) fn new(game: &Game, room: u64, me: Player, epoch: u32) -> Memory
        ensures { result ≡ fresh_memory game.now room me.number epoch }
    {
        Memory {
            links: Links::new(me, game, room, epoch),
            window: Window::new(game),
            chair: Chair::new(),
            stayer: Stayer::new(),
            alarm: false,
            watchers: Watchers::new(),
        }
    }

    /// Returns the header of a datagram to another player.
    pub(crate) fn head(&self, to: Player, kind: Kind) -> Head
        requires { are_seats (wire_of kind) self.now.links.me to.number ≡ true }
        ensures { head_value result ≡ head_to self.now.links to.number (wire_of kind) }
    {
        self.links.head(Seat::from(to), kind.wire())
    }

    /// Returns the header of a SHOW to a watcher.
    pub(crate) fn show_head(&self, watcher: Watcher) -> Head
        requires { self.now.links.me ≡ 1 }
        ensures { head_value result ≡ head_to self.now.links watcher.number wires.Show }
    {
        self.links.head(Seat::from(watcher), DatagramKind::Show)
    }

    /// Keeps what a datagram says besides inputs. Call it after the last refusal.
    pub(crate) fn note(&mut self, known: &Known, sender: Player, datagram: &Datagram<'_>)
        requires admitted { refusal self.old.links (packet_of datagram.now).head ≡ None }
        requires from { sender.number ≡ (packet_of datagram.now).head.from }
        requires acks { AcksWithin known.now (packet_of datagram.now).message }
        ensures { self.new ≡ memory_after self.old (packet_of datagram.now) }
    {
        match datagram {
            Datagram::Hello(_) => self.links.hear(datagram),
            Datagram::Welcome(welcome) => {
                self.links.hear(datagram);
                let _taken = self.window.ack(sender, welcome.ack(), known);
            }
            Datagram::Data(data) => {
                let _taken = self.window.ack(sender, data.ack(), known);
            }
            Datagram::Freeze(freeze) => self.stayer.told(freeze.leaver(), freeze.have()),
            Datagram::Frozen(frozen) => self.chair.report(sender, frozen.leaver(), frozen.held()),
            Datagram::Cut(_) | Datagram::Show(_) | Datagram::Seen(_) => {}
        }
    }

    pub(crate) fn seen(&mut self, watcher: Watcher, rows: u32)
        ensures { self.new ≡ record self.old {
          seen = with_seen self.old.seen watcher.number rows;
        } }
    {
        self.watchers.tell(watcher, rows);
    }

    pub(crate) fn raise_alarm(&mut self)
        ensures { self.new ≡ record self.old { alarm = true } }
    {
        self.alarm = true;
    }
}
