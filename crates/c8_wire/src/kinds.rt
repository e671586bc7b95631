//! The kinds of datagrams: a row for each, which code and definitions read.
ghost use Rattle.std.specs.Prelude.{◌≡◌, true, false};
ghost use Rattle.c8_wire.specs.Kinds.{IsSized, shape_of, shape_value};
ghost use Rattle.c8_wire.specs.Seats.{are_parties, is_player, is_watcher};

use crate::error::WireError;
use std::fmt;

/// The kind of a datagram.
#[derive(Clone, Copy, Debug, PartialEq, Eq, Hash)]
pub enum DatagramKind {
    /// The sender asks for a link.
    Hello,
    /// The answer to a HELLO. It opens the addressee's link.
    Welcome,
    /// The sender's inputs.
    Data,
    /// Player one drops a player.
    Freeze,
    /// The inputs of a dropped player that the sender holds.
    Frozen,
    /// How many inputs of a dropped player count, and some of them.
    Cut,
    /// Rows of the match, for a watcher.
    Show,
    /// How many rows a watcher has.
    Seen,
}

/// What the body of a datagram ends with.
#[derive(Clone, Copy, Debug, PartialEq, Eq, Hash)]
pub enum Tail {
    Nothing,
    /// A run: its start, its count, its inputs.
    Run,
    /// Rows: their start, their count, the rows.
    Rows,
}

/// Who sends datagrams of a kind to whom.
#[derive(Clone, Copy, Debug, PartialEq, Eq, Hash)]
pub enum Parties {
    /// A player to another player.
    Players,
    /// Player one to a watcher.
    ToWatcher,
    /// A watcher to player one.
    FromWatcher,
}

/// The link that a player needs to take a datagram of a kind.
#[derive(Clone, Copy, Debug, PartialEq, Eq, Hash)]
pub enum Wanted {
    Nothing,
    /// The datagram names the epoch of its addressee.
    Known,
    /// It also names an epoch of its sender that is linked.
    Open,
    /// Players take none.
    Never,
}

/// Whose key seals the datagrams of a kind.
#[derive(Clone, Copy, Debug, PartialEq, Eq, Hash)]
pub enum KeyOf {
    Players,
    Watchers,
}

/// All that is said of a kind.
#[derive(Clone, Copy, Debug, PartialEq, Eq, Hash)]
pub struct Shape {
    /// The name in capital letters, for example `HELLO`.
    pub name: &'static str,
    /// Byte 3 of its datagrams.
    pub code: u8,
    /// The length in bytes of the body before its run or rows; of the whole body if it has neither.
    pub fixed: usize,
    pub tail: Tail,
    /// Whether the body begins with a dropped player and a byte 0.
    pub names_leaver: bool,
    pub parties: Parties,
    pub link: Wanted,
    pub key: KeyOf,
}

impl DatagramKind {
    /// Returns the row of the kind.
    pub fn shape(self) -> Shape
        ensures value { shape_value result ≡ shape_of self }
        ensures sized { IsSized (shape_of self) }
    {
        match self {
            DatagramKind::Hello => asking("HELLO", 1, 0, Wanted::Nothing),
            DatagramKind::Welcome => asking("WELCOME", 2, 4, Wanted::Known),
            DatagramKind::Data => telling("DATA", 3, 22, Tail::Run, false),
            DatagramKind::Freeze => telling("FREEZE", 4, 6, Tail::Nothing, true),
            DatagramKind::Frozen => telling("FROZEN", 5, 12, Tail::Run, true),
            DatagramKind::Cut => telling("CUT", 6, 12, Tail::Run, true),
            DatagramKind::Show => watching("SHOW", 7, 6, Tail::Rows, Parties::ToWatcher),
            DatagramKind::Seen => watching("SEEN", 8, 4, Tail::Nothing, Parties::FromWatcher),
        }
    }
}

/// The row of a kind by which players make a link.
fn asking(name: &'static str, code: u8, fixed: usize, link: Wanted) -> Shape
    ensures { shape_value result ≡ record {
      code = code;
      fixed = fixed;
      tail = Tail.Nothing;
      names_leaver = false;
      parties = Parties.Players;
      link = link;
      key = KeyOf.Players;
    } }
{
    Shape {
        name,
        code,
        fixed,
        tail: Tail::Nothing,
        names_leaver: false,
        parties: Parties::Players,
        link,
        key: KeyOf::Players,
    }
}

/// The row of a kind by which linked players tell inputs.
fn telling(name: &'static str, code: u8, fixed: usize, tail: Tail, names_leaver: bool) -> Shape
    ensures { shape_value result ≡ record {
      code = code;
      fixed = fixed;
      tail = tail;
      names_leaver = names_leaver;
      parties = Parties.Players;
      link = Wanted.Open;
      key = KeyOf.Players;
    } }
{
    Shape {
        name,
        code,
        fixed,
        tail,
        names_leaver,
        parties: Parties::Players,
        link: Wanted::Open,
        key: KeyOf::Players,
    }
}

/// The row of a kind between player one and a watcher.
fn watching(name: &'static str, code: u8, fixed: usize, tail: Tail, parties: Parties) -> Shape
    ensures { shape_value result ≡ record {
      code = code;
      fixed = fixed;
      tail = tail;
      names_leaver = false;
      parties = parties;
      link = Wanted.Never;
      key = KeyOf.Watchers;
    } }
{
    Shape {
        name,
        code,
        fixed,
        tail,
        names_leaver: false,
        parties,
        link: Wanted::Never,
        key: KeyOf::Watchers,
    }
}

impl TryFrom<u8> for DatagramKind {
    type Error = WireError;

    ghost use Rattle.c8_wire.specs.Kinds.{IsKindOf};

    ghost try_from_gives = { IsKindOf };

    /// Returns the kind with this code; `WireError::Kind` if there is none.
    #[tactic(auto, unfolding(crate::specs::Kinds::kind_of_code))]
    fn try_from(code: u8) -> Result<DatagramKind, WireError> {
        match code {
            1 => Ok(DatagramKind::Hello),
            2 => Ok(DatagramKind::Welcome),
            3 => Ok(DatagramKind::Data),
            4 => Ok(DatagramKind::Freeze),
            5 => Ok(DatagramKind::Frozen),
            6 => Ok(DatagramKind::Cut),
            7 => Ok(DatagramKind::Show),
            8 => Ok(DatagramKind::Seen),
            _ => Err(WireError::Kind),
        }
    }
}

/// Prints the name of the kind.
impl fmt::Display for DatagramKind {
    fn fmt<W: fmt::Write>(&self, f: &mut fmt::Formatter<W>) -> fmt::Result {
        f.write_str(self.shape().name)
    }
}

impl Parties {
    /// Returns whether seat `from` may send such a datagram to seat `to`.
    pub fn are_seats(self, from: u8, to: u8) -> bool
        ensures { result ≡ are_parties self from to }
    {
        match self {
            Parties::Players => is_player(from) && is_player(to) && from != to,
            Parties::ToWatcher => from == 1 && is_watcher(to),
            Parties::FromWatcher => is_watcher(from) && to == 1,
        }
    }
}

fn is_player(seat: u8) -> bool
    ensures { result ≡ is_player seat }
{
    1 <= seat && seat <= 4
}

fn is_watcher(seat: u8) -> bool
    ensures { result ≡ is_watcher seat }
{
    5 <= seat && seat <= 6
}
