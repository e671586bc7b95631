//! How the program ends.

ghost use Rattle.std.specs.Prelude.{◌≡◌};
ghost use Rattle.std.specs.Process.{exit_status};
ghost use Rattle.c8_command.specs.Status.{exit_code_of};

use std::process::ExitCode;

/// How the program ended.
#[derive(Clone, Copy, Debug, PartialEq, Eq)]
pub enum Status {
    /// It did what it was asked.
    Done,
    /// It refused its input, or memory ran out.
    Refused,
    /// The command line has a mistake.
    CommandLine,
    /// A disk or a socket failed.
    Failed,
}

impl Status {
    /// Returns the exit status of the program.
    pub fn code(self) -> u8
        ensures { result ≡ exit_code_of self }
    {
        match self {
            Status::Done => 0,
            Status::Refused => 1,
            Status::CommandLine => 2,
            Status::Failed => 3,
        }
    }
}

impl From<Status> for ExitCode {
    ghost from_gives = { λ status code. exit_status code ≡ exit_code_of status };

    fn from(status: Status) -> ExitCode {
        ExitCode::from(status.code())
    }
}
