//! The addresses of the players of a game, and of its watchers.

ghost use Rattle.std.specs.Prelude.{◌≡◌, ◌≢◌, ◌+◌, ◌<◌, ◌≤◌, ◌⊎◌, ℕ, List, length, false, Some, IfOk, IfErr, IsErrOf, MatchResult};
ghost use Rattle.std.specs.Borrow.{Bor};
ghost use Rattle.std.specs.Net.Grammar.{IsSocketText};
ghost use Rattle.std.specs.declared.net.socket_addr.SocketAddr.{SocketAddr};
ghost use Rattle.c8_udp.specs.Words.{IsRemote, IsNoRemote, IsNoAddress, AreNoAddresses};

use crate::contacts::Contact;
use crate::error::SocketError;
use crate::no_address::LEARNT;
use c8_game::{MOST_PLAYERS, Player};
use std::net::SocketAddr;

/// The most watchers of a match.
pub const MOST_WATCHERS: usize = 2;

/// The most players and watchers of a match.
pub(crate) const MOST_SEATS: usize = MOST_PLAYERS + MOST_WATCHERS;

/// How a player or watcher is reached.
#[derive(Clone, Copy, Debug, PartialEq, Eq)]
pub enum Remote {
    /// At this address.
    At(SocketAddr),
    /// At the address from which its newest packet came, once the first has come. This needs a match with a secret.
    Learnt,
}

/// The own address, and how each other player is reached, by place.
#[derive(Clone, Copy)]
pub struct Addresses {
    pub local: SocketAddr,
    pub others: [Option<Remote>; MOST_PLAYERS],
    /// How the watchers in seats 5 and 6 are reached, if there are any.
    pub watchers: [Option<Remote>; MOST_WATCHERS],
}

impl Addresses {
    /// Reads the addresses of a player: the own one, those of the other players in order of number, and those of the
    /// watchers in seats 5 and 6, if there are any. `-` stands for an address that is learnt. The error is `Remotes` if
    /// the number of other players is wrong. Otherwise it is `Address` if an address cannot be read, cannot be reached
    /// from the own one (port 0, or another IP version), or is `-` although none may be learnt.
    pub fn read(
        players: u8,
        me: Player,
        local: &str,
        remotes: &[&str],
        watchers: [Option<&str>; MOST_WATCHERS],
        may_learn: bool,
    ) -> Result<Addresses, SocketError>
        requires { players ≤ 4 }
        ensures remotes { length remotes.now + 1 ≢ players → IsErrOf result SocketError.Remotes }
        ensures counted { IsErrOf result SocketError.Remotes → length remotes.now + 1 ≢ players }
        ensures no_other { IfErr result (λ error. (error ≡ SocketError.Remotes) ⊎ (error ≡ SocketError.Address)) }
        ensures read { IfOk result (λ _. length remotes.now + 1 ≡ players) }
        ensures refused { IsErrOf result SocketError.Address
            → AreNoAddresses may_learn local.now remotes.now watchers.entry }
    {
        if remotes.len() + 1 != usize::from(players) {
            return Err(SocketError::Remotes);
        }
        let local = address(local)?;
        let mut others = [None; MOST_PLAYERS];
        for place in 0..remotes.len() {
            others[place_of(place, me)] = Some(remote_of(remotes[place], local, may_learn)?);
        }
        let [five, six] = watchers;
        Ok(Addresses {
            local,
            others,
            watchers: [
                watcher(five, local, may_learn)?,
                watcher(six, local, may_learn)?,
            ],
        })
    }

    /// Reads a watcher's own address, and player 1's. `Address` if one cannot be read, or if player 1's cannot be
    /// reached from the own one.
    pub fn of_player_one(local: &str, one: &str) -> Result<Addresses, SocketError>
        ensures { IfErr result (λ error. (error ≡ SocketError.Address)
            × (IsNoAddress local.now ⊎ ((own : SocketAddr) × IsSocketText local.now own × IsNoRemote false own one.now))) }
    {
        let local = address(local)?;
        let one = remote_of(one, local, false)?;
        Ok(Addresses {
            local,
            others: [Some(one), None, None, None],
            watchers: [None; MOST_WATCHERS],
        })
    }

    /// Returns the first contact of each player and watcher, in order of number.
    pub(crate) fn contacts(&self) -> [Contact; MOST_SEATS] {
        let [one, two, three, four] = self.others;
        let [five, six] = self.watchers;
        [
            contact(one),
            contact(two),
            contact(three),
            contact(four),
            contact(five),
            contact(six),
        ]
    }
}

/// Returns the contact of a player or watcher from which nothing has come yet.
fn contact(remote: Option<Remote>) -> Contact {
    match remote {
        None => Contact::Nobody,
        Some(Remote::At(address)) => Contact::Named(address),
        Some(Remote::Learnt) => Contact::Learnt(None),
    }
}

/// Returns whether two addresses have the same host and port. An IPv4 address that is mapped into IPv6 counts as IPv4.
pub(crate) fn is_same(one: SocketAddr, other: SocketAddr) -> bool {
    one.port() == other.port() && one.ip().to_canonical() == other.ip().to_canonical()
}

/// Returns the first of these words that [`Addresses::read`] refuses as an address, if any.
pub fn refused_address<'a>(
    local: &'a str,
    remotes: &[&'a str],
    watchers: [Option<&'a str>; MOST_WATCHERS],
    may_learn: bool,
) -> Option<&'a str> {
    let Ok(own) = address(local) else {
        return Some(local);
    };
    for word in remotes {
        if remote_of(word, own, may_learn).is_err() {
            return Some(*word);
        }
    }
    let [five, six] = watchers;
    five.filter(|word| remote_of(word, own, may_learn).is_err())
        .or(six.filter(|word| remote_of(word, own, may_learn).is_err()))
}

/// Reads how a watcher is reached, if there is one.
fn watcher(
    word: Option<&str>,
    local: SocketAddr,
    may_learn: bool,
) -> Result<Option<Remote>, SocketError>
    ensures { IfErr result (λ error. (error ≡ SocketError.Address)
        × ((given : Bor (List ℕ)) × (word.entry ≡ Some given) × IsNoRemote may_learn local given.now)) }
{
    match word {
        Some(word) => Ok(Some(remote_of(word, local, may_learn)?)),
        None => Ok(None),
    }
}

/// Returns the place among all players, from 0, of the player at a place among the others.
fn place_of(place: usize, me: Player) -> usize
    requires { place < 3 }
    ensures { result < 4 }
{
    if place + 1 < usize::from(me.number) {
        place
    } else {
        place + 1
    }
}

/// Reads how another player or a watcher is reached. An address must be reachable from the own one.
fn remote_of(word: &str, local: SocketAddr, may_learn: bool) -> Result<Remote, SocketError>
    ensures { MatchResult result (IsRemote may_learn local word.now)
        (λ error. (error ≡ SocketError.Address) × IsNoRemote may_learn local word.now) }
{
    if may_learn && word == LEARNT {
        return Ok(Remote::Learnt);
    }
    let found = address(word)?;
    if found.port() == 0 || found.is_ipv4() != local.is_ipv4() {
        return Err(SocketError::Address);
    }
    Ok(Remote::At(found))
}

/// Reads an address.
fn address(word: &str) -> Result<SocketAddr, SocketError>
    ensures { MatchResult result (IsSocketText word.now)
        (λ error. (error ≡ SocketError.Address) × IsNoAddress word.now) }
{
    match word.parse::<SocketAddr>() {
        Ok(address) => Ok(address),
        Err(_) => Err(SocketError::Address),
    }
}
