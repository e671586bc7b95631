//! The schedule of one peer's turns.
ghost use Rattle.std.specs.Prelude.{◌≡◌, ◌<◌, ◌↔◌, ◌-◌, true, false, IsTrue, option_map};
ghost use Rattle.c8_wire.specs.Lent.{head_of, packet_of};
ghost use Rattle.c8_peer.specs.Asked.{saying_of};
ghost use Rattle.c8_peer.specs.Peer.{known_by};
ghost use Rattle.c8_session.specs.Due.{due_of_leaver, due_to, has};
ghost use Rattle.c8_session.specs.Notes.{greeted, no_greeters, no_notes, resting_of, rested_after, is_done, needs_nothing};
ghost use Rattle.c8_session.specs.Rest.{has_a_leave, turns_to_rest};

use crate::silence::{Life, Silence};
use c8_disk::Disk;
use c8_game::{Game, MOST_PLAYERS, Player};
use c8_hand::HandError;
use c8_peer::{Check, Heard, Kind, Peer, Refused};
use c8_wire::{Datagram, DatagramKind, Header};

/// How many turns a peer goes on after everything is confirmed and acknowledged, so that the other peers get its last
/// acknowledgements.
const REST: u32 = 120;

/// The same for player 1 once it has dropped a player. Nothing acknowledges a CUT, and a player that was away gets it only
/// while player 1 goes on.
const REST_AFTER_A_DROP: u32 = 1200;

/// At how many places a turn looks for what is due to one player: HELLO, WELCOME, DATA, and one for each leaver.
pub const MOST_DUE: u8 = 7;

/// What a session remembers from turn to turn beside its peer.
#[derive(Clone, Copy, Debug)]
pub struct Schedule {
    /// The number of frames of the game.
    frames: u32,
    /// After how many silent turns player 1 drops a player; `None` for never.
    patience: Option<u64>,
    /// Whom player 1 drops in the next turn, by place.
    given_up: [bool; MOST_PLAYERS],
    /// A checkpoint begins once this many frames were confirmed since the last one (0: never), and whether one is under
    /// way.
    interval: u32,
    is_saving: bool,
    life: Life,
    silence: Silence,
    /// Whether another player holds own inputs that this peer's journal does not have.
    is_lost: bool,
    /// Whose HELLO the peer has taken since it last spoke, by place.
    greeters: [bool; MOST_PLAYERS],
    /// The number of turns that ended with everything confirmed and acknowledged.
    rested: u32,
    /// Whether player 1 rests 120 turns even if it has dropped a player.
    is_brief: bool,
}

impl Schedule {
    /// Before the first turn. `patience` is a number of silent turns. With `interval` 0 no checkpoint is due.
    pub fn new(game: &Game, patience: Option<u64>, interval: u32) -> Schedule
        ensures greeters { result.greeters ≡ no_greeters }
        ensures resting { resting_of result ≡ (no_notes game.now.frames).resting }
    {
        Schedule {
            frames: game.frames(),
            patience,
            given_up: [false; MOST_PLAYERS],
            interval,
            is_saving: false,
            life: Life::default(),
            silence: Silence::new(),
            is_lost: false,
            greeters: [false; MOST_PLAYERS],
            rested: 0,
            is_brief: false,
        }
    }

    /// Counts this as a sign of life from now on.
    pub fn counts(&mut self, life: Life)
        ensures greeters { self.new.greeters ≡ self.old.greeters }
        ensures resting { resting_of self.new ≡ resting_of self.old }
    {
        self.life = life;
    }

    /// Lets player 1 rest 120 turns even if it has dropped a player.
    pub fn rests_briefly(&mut self)
        ensures greeters { self.new.greeters ≡ self.old.greeters }
        ensures resting { resting_of self.new ≡ record (resting_of self.old) { is_brief = true } }
    {
        self.is_brief = true;
    }

    /// The number of frames of the game.
    pub fn frames(&self) -> u32
        ensures { result ≡ self.now.frames }
    {
        self.frames
    }

    /// A turn begins: each player has been silent for one turn more.
    pub fn begin(&mut self)
        ensures greeters { self.new.greeters ≡ self.old.greeters }
        ensures resting { resting_of self.new ≡ resting_of self.old }
    {
        self.silence.begin();
    }

    /// Notes a datagram that the peer was given, and its answer: whether it is a sign of life of its sender, whether it is
    /// a HELLO that was taken, and whether it shows that the journal was lost.
    pub fn heard<D: Disk>(
        &mut self,
        peer: &Peer<'_, D>,
        datagram: &Datagram<'_>,
        answer: Result<Heard, Refused>,
    )
        ensures greeters { self.new.greeters ≡ greeted self.old.greeters (packet_of datagram.now).head answer }
        ensures resting { resting_of self.new ≡ resting_of self.old }
    {
        let header = datagram.header();
        self.greet(&header, answer);
        let Some(sender) = header.from().player() else {
            return;
        };
        let is_hello = header.kind() == DatagramKind::Hello;
        let is_alive = match self.life {
            Life::Admitted => is_admitted(answer),
            Life::OpenLink => answer.is_ok() && !is_hello && peer.is_linked(sender),
        };
        if is_alive {
            self.silence.heard(sender);
        }
        self.is_lost |= is_of_match(answer) && shows_a_loss(peer, datagram);
    }

    /// Notes the sender of a HELLO that the peer took: it is answered when the peer speaks next.
    fn greet(&mut self, header: &Header<'_>, answer: Result<Heard, Refused>)
        ensures greeters { self.new.greeters ≡ greeted self.old.greeters (head_of header.now) answer }
        ensures resting { resting_of self.new ≡ resting_of self.old }
    {
        if answer.is_ok()
            && header.kind() == DatagramKind::Hello
            && let Some(sender) = header.from().player()
        {
            self.greeters[sender.place()] = true;
        }
    }

    /// Whether the others know more of this player than its journal does: a later epoch, or more inputs. So the journal
    /// that this came from is gone.
    pub fn is_lost(&self) -> bool
        ensures { result ≡ self.now.is_lost }
    {
        self.is_lost
    }

    /// How many turns have begun since the last sign of life of the player, or since the start.
    pub fn silent(&self, player: Player) -> u64 {
        self.silence.turns(player)
    }

    /// Player 1 drops this player in the next turn, however long it has been silent.
    pub fn give_up(&mut self, player: Player)
        ensures greeters { self.new.greeters ≡ self.old.greeters }
        ensures resting { resting_of self.new ≡ resting_of self.old }
    {
        self.given_up[player.place()] = true;
    }

    /// Whether player 1 drops a player: it has been silent for `patience` turns, or was given up.
    pub fn drops(&self, player: Player) -> bool {
        let is_silent = match self.patience {
            Some(patience) => self.silence.turns(player) >= patience,
            None => false,
        };
        is_silent || self.given_up[player.place()]
    }

    /// Whether the next part of a checkpoint is due: one is under way, or `interval` frames were confirmed since the last
    /// one.
    pub fn saves<D: Disk>(&self, peer: &Peer<'_, D>) -> bool {
        let since = peer.confirmed().saturating_sub(peer.last_checkpoint());
        self.is_saving || (self.interval > 0 && since >= self.interval)
    }

    /// Notes whether the checkpoint goes on after this part.
    pub fn saved(&mut self, part: Check)
        ensures greeters { self.new.greeters ≡ self.old.greeters }
        ensures resting { resting_of self.new ≡ resting_of self.old }
    {
        self.is_saving = matches!(part, Check::Piece(_));
    }

    /// Which datagram is due to another player at one of the places 0 to [`MOST_DUE`] - 1 of a turn, if any. HELLO if the
    /// link is not open, WELCOME if the player has greeted, DATA if the link is open, also beside a WELCOME; then, for each
    /// leaver, the datagram of its drop round.
    pub fn due<D: Disk>(&self, peer: &Peer<'_, D>, to: Player, place: u8) -> Option<Kind>
        requires { place < MOST_DUE }
        ensures { option_map saying_of result ≡ due_to peer.now.me (known_by peer.now) peer.now.state.memory
            (has self.now.greeters (to.number - 1)) to.number place }
    {
        let is_linked = peer.is_linked(to);
        let has_greeted = self.greeters[to.place()];
        match place {
            0 if !is_linked => Some(Kind::Hello),
            1 if has_greeted => Some(Kind::Welcome),
            2 if is_linked => Some(Kind::Data),
            0..=2 => None,
            _ => round(peer, to, Player::new(place - 2)?),
        }
    }

    /// A turn ends: it has greeted back all who had greeted.
    pub fn end<D: Disk>(&mut self, peer: &Peer<'_, D>)
        ensures greeters { self.new.greeters ≡ no_greeters }
        ensures resting { resting_of self.new ≡ rested_after (resting_of self.old) peer.now }
    {
        self.greeters = [false; MOST_PLAYERS];
        if self.is_done(peer) {
            self.rested = self.rested.saturating_add(1);
        }
    }

    /// Whether all frames are confirmed here, and every player without a cut has acknowledged this player's inputs of
    /// all frames.
    fn is_done<D: Disk>(&self, peer: &Peer<'_, D>) -> bool
        ensures { result ≡ is_done self.now.frames peer.now }
    {
        peer.confirmed() >= self.frames
            && self.needs_nothing(peer, Player { number: 1 })
            && self.needs_nothing(peer, Player { number: 2 })
            && self.needs_nothing(peer, Player { number: 3 })
            && self.needs_nothing(peer, Player { number: 4 })
    }

    /// Whether this peer may end without waiting for the player.
    fn needs_nothing<D: Disk>(&self, peer: &Peer<'_, D>, player: Player) -> bool
        ensures { result ≡ needs_nothing self.now.frames peer.now player.number }
    {
        player.number > peer.players()
            || player == peer.me()
            || peer.cut_of(player).is_some()
            || peer.acked(player) >= self.frames
    }

    /// Whether everything has been confirmed and acknowledged for more turns than this peer rests.
    pub fn has_rested<D: Disk>(&self, peer: &Peer<'_, D>) -> bool
        ensures { IsTrue result ↔ (turns_to_rest self.now.is_brief peer.now < self.now.rested) }
    {
        self.rested > self.turns_to_rest(peer)
    }

    /// How many turns the peer goes on after everything is confirmed and acknowledged.
    fn turns_to_rest<D: Disk>(&self, peer: &Peer<'_, D>) -> u32
        ensures { result ≡ turns_to_rest self.now.is_brief peer.now }
    {
        if !self.is_brief && peer.me().is_chair() && has_a_leave(peer) {
            REST_AFTER_A_DROP
        } else {
            REST
        }
    }
}

/// Whether the peer's journal has the LEAVE of a player. Player 1's has that of each player that it dropped.
fn has_a_leave<D: Disk>(peer: &Peer<'_, D>) -> bool
    ensures { result ≡ has_a_leave (known_by peer.now) }
{
    peer.leaving(Player { number: 1 })
        || peer.leaving(Player { number: 2 })
        || peer.leaving(Player { number: 3 })
        || peer.leaving(Player { number: 4 })
}

/// Which datagram of a leaver's drop round a player gets, if any. Player 1 sends FREEZE to the stayers until the cut, and
/// CUT to all after it. The others send FROZEN to player 1 until they have the cut.
fn round<D: Disk>(peer: &Peer<'_, D>, to: Player, leaver: Player) -> Option<Kind>
    ensures { option_map saying_of result ≡ due_of_leaver peer.now.me (known_by peer.now) to.number leaver.number }
{
    let is_cut = peer.cut_of(leaver).is_some();
    if peer.me().is_chair() {
        if is_cut {
            Some(Kind::Cut(leaver))
        } else if peer.leaving(leaver) && !peer.leaving(to) {
            Some(Kind::Freeze(leaver))
        } else {
            None
        }
    } else if to.is_chair() && peer.frozen(leaver) && !is_cut {
        Some(Kind::Frozen(leaver))
    } else {
        None
    }
}

/// Whether a datagram to a peer names a later epoch of it than its own, or acknowledges more inputs in this one than it
/// has. Both are recorded before anything of them is sent.
fn shows_a_loss<D: Disk>(peer: &Peer<'_, D>, datagram: &Datagram<'_>) -> bool {
    let (named, own) = (datagram.header().addressee_epoch(), peer.epoch());
    named > own || (named == own && acknowledged(datagram) > peer.count(peer.me()))
}

/// How many inputs of its addressee a datagram acknowledges.
fn acknowledged(datagram: &Datagram<'_>) -> u32 {
    match datagram {
        Datagram::Welcome(welcome) => welcome.ack(),
        Datagram::Data(data) => data.ack(),
        Datagram::Hello(_)
        | Datagram::Freeze(_)
        | Datagram::Frozen(_)
        | Datagram::Cut(_)
        | Datagram::Show(_)
        | Datagram::Seen(_) => 0,
    }
}

/// Whether a datagram with this answer is one of this match to this player, and the peer is open.
fn is_of_match(answer: Result<Heard, Refused>) -> bool {
    !matches!(
        answer,
        Err(
            Refused::Down
                | Refused::Dropped
                | Refused::Wire(_)
                | Refused::OtherWire
                | Refused::Hand(HandError::Session | HandError::NotMine)
        )
    )
}

/// Whether the links admitted the datagram, whatever came after that.
fn is_admitted(answer: Result<Heard, Refused>) -> bool {
    !matches!(
        answer,
        Err(
            Refused::Down
                | Refused::Dropped
                | Refused::Wire(_)
                | Refused::OtherWire
                | Refused::Hand(_)
        )
    )
}
