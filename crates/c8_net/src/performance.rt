//! Plays a match once its journal is open.

ghost use Rattle.std.specs.Prelude.{◌≡◌, IfOk};
ghost use Rattle.c8_peer.specs.Peer.{PeerValue};
ghost use Rattle.c8_net.specs.Match.{HasEnded};

use crate::arguments::Asked;
use crate::error::Unopened;
use crate::line::Line;
use c8_disk::Disk;
use c8_game::Game;
use c8_live::SessionError;
use c8_session::Session;
use c8_transport::WireFailed;
use std::io::Write;
use std::net::Net;
use std::time::Clock;

/// A session after its last turn, and how many turns were made or what ended them.
#[derive(Drop)]
pub struct Ended<'g, D: Disk> {
    pub session: Session<'g, D>,
    pub turns: Result<u64, SessionError>,
}

impl<'g, D: Disk> Ended<'g, D> {
    /// Returns whether the session ended because the others know more of this player than its journal does.
    pub(crate) fn is_lost(&self) -> bool {
        self.turns.is_ok() && self.session.is_lost()
    }

    /// Adds the result of the net thread: if its wire failed, that ended the session.
    pub(crate) fn after(self, moved: Result<(), WireFailed>) -> Ended<'g, D>
        ensures { (first : PeerValue D) → HasEnded D.Disk first self.entry.session.peer self.entry.turns
            → HasEnded D.Disk first result.session.peer result.turns }
    {
        let Ended { session, turns } = self;
        let turns = match moved {
            Err(failed) if turns.is_ok() => Err(SessionError::Wire(failed)),
            _ => turns,
        };
        Ended { session, turns }
    }
}

/// Makes the turns of a session in the caller's thread, for example from a keyboard, once a frame. Whatever it does,
/// the session's peer only runs on, each of its calls one step of the definitions.
pub trait Performance {
    /// Opens the transport, and makes turns of a session of this game until the session is over or the performance
    /// ends. The error comes before the first turn.
    fn perform<'g, R: Net + Clock, D: Disk + Drop, E: Write>(
        self,
        rt: &R,
        asked: &Asked<'_, '_>,
        line: Line,
        game: &Game,
        session: Session<'g, D>,
        progress: &mut E,
    ) -> Result<Ended<'g, D>, Unopened>
        requires { session.peer.rules ≡ game.now }
        ensures { IfOk result (λ ended.
            HasEnded D.Disk session.entry.peer ended.session.peer ended.turns) };
}
