//! The sentence at the end of an audit.

ghost use Rattle.std.specs.Prelude.{◌≡◌, Some};
ghost use Rattle.c8_audit.specs.Printed.{words_of, rest_of, conclusion_of};

use crate::fault::{Answer, Fault, Short};
use crate::verdict::Verdicts;
use c8_game::Player;
use std::fmt;

/// What the verdicts say in a sentence: the first no, else why a verdict is short, else that all are yes.
#[derive(Clone, Copy, Debug, PartialEq, Eq)]
pub enum Conclusion {
    Agree,
    /// A player's own journal has another input.
    Accused(Fault),
    /// A player's last checkpoint is not true.
    Untrue(Player),
    /// Two players differ.
    Opposed(Fault),
    /// A journal ends too early.
    Short(Short),
}

/// Returns what the verdicts say.
pub fn conclusion_of(verdicts: &Verdicts) -> Conclusion
    ensures { result ≡ conclusion_of verdicts.now }
{
    match verdicts.entered {
        Answer::No(fault) => Conclusion::Accused(fault),
        Answer::Short(short) => rest_of(Some(short), verdicts.untrue, verdicts.agree),
        Answer::Yes => rest_of(None, verdicts.untrue, verdicts.agree),
    }
}

/// Returns what they say if nobody is accused of an input. `short` is the journal that is short of inputs, if one is.
fn rest_of(short: Option<Short>, untrue: Option<Player>, agree: Answer) -> Conclusion
    ensures { result ≡ rest_of short untrue agree }
{
    if let Some(player) = untrue {
        return Conclusion::Untrue(player);
    }
    match agree {
        Answer::No(fault) => Conclusion::Opposed(fault),
        Answer::Short(other) => Conclusion::Short(short.unwrap_or(other)),
        Answer::Yes => match short {
            Some(short) => Conclusion::Short(short),
            None => Conclusion::Agree,
        },
    }
}

/// Writes the sentence, without an end of the line.
impl fmt::Display for Conclusion {
    ghost output = { λ conclusion. Some (words_of conclusion) };

    fn fmt<W: fmt::Write>(&self, f: &mut fmt::Formatter<W>) -> fmt::Result {
        match *self {
            Conclusion::Agree => f.write_str("the journals agree"),
            Conclusion::Accused(fault) => {
                let (one, frame, other) = (fault.one.number, fault.frame, fault.other.number);
                write!(
                    f,
                    "player {one}'s own journal has another input in frame {frame} than player {other}'s"
                )
            }
            Conclusion::Untrue(player) => {
                let number = player.number;
                write!(
                    f,
                    "player {number}'s last checkpoint is not that of its inputs"
                )
            }
            Conclusion::Opposed(fault) => {
                let (frame, one, other) = (fault.frame, fault.one.number, fault.other.number);
                write!(
                    f,
                    "players {one} and {other} have different inputs in frame {frame}"
                )
            }
            Conclusion::Short(short) => {
                let number = short.player.number;
                write!(
                    f,
                    "player {number}'s journal ends before what others hold of it"
                )
            }
        }
    }
}
