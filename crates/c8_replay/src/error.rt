//! Why the command `replay` refuses, and the line that says so.

ghost use Rattle.std.specs.Prelude.{◌≡◌, IfOk};
ghost use Rattle.c8_command.specs.Status.{status_of};
ghost use Rattle.c8_command.specs.declared.status.Status.TheVariants as statuses;

use c8_audit::JournalError;
use c8_command::{Part, Refusal, Site, Status};
use c8_game::GameError;
use std::fmt::Display;
use std::io;
use std::io::Write;
use thiserror::Error;

/// Why the command `replay` refuses.
#[derive(Clone, Copy, Debug, PartialEq, Eq, Error)]
pub enum ReplayFault {
    /// The text of the game has a fault.
    #[error("{0}")]
    Game(GameError),
    /// The journal is refused.
    #[error("{0}")]
    Journal(JournalError),
    /// Only this many frames are confirmed, fewer than `--to` asks for.
    #[error("{0} frames are confirmed")]
    Beyond(u32),
}

impl ReplayFault {
    /// Writes the line of the refusal, and a second line with the sentence of the error if there is a site. Returns the
    /// exit status.
    pub(crate) fn tell_at<W: Write>(self, site: Option<Site<'_>>, out: &mut W) -> io::Result<Status>
        ensures { IfOk result (λ status. status ≡ statuses.Refused) }
    {
        self.tell_why(site, &self, out)
    }

    /// The same with another sentence.
    pub(crate) fn tell_why<W: Write, D: Display>(
        self,
        site: Option<Site<'_>>,
        why: &D,
        out: &mut W,
    ) -> io::Result<Status>
        ensures { IfOk result (λ status. status ≡ statuses.Refused) }
    {
        self.refusal().tell_at(site, why, out)
    }

    /// Returns the words of the refusal's line.
    pub(crate) fn refusal(self) -> Refusal
        ensures { status_of result.part ≡ statuses.Refused }
    {
        let (part, number, name) = match self {
            ReplayFault::Game(error) => (Part::Game, error.number(), error.name()),
            ReplayFault::Journal(error) => (Part::Open, error.number(), error.name()),
            ReplayFault::Beyond(_) => (Part::Replay, 1, "Beyond"),
        };
        Refusal { part, number, name }
    }
}
