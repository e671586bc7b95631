//! The addresses that a command line names, once the system has found the hosts that it names.

use crate::addresses::{MOST_WATCHERS, refused_address};
use crate::names::address_at;
use crate::no_address::{LEARNT, NoAddress, Wanted};
use std::alloc::{AllocError, Global};
use std::net::{Net, SocketAddr};

/// The words of a command line for addresses.
#[derive(Clone, Copy)]
pub struct Named<'m, 'a> {
    /// The own address; with a relay it may be empty.
    pub local: &'a str,
    /// The other players' addresses or names, if any.
    pub remotes: Option<&'m [&'a str]>,
    /// The relay's address or name: it stands for each other player's.
    pub relay: Option<&'a str>,
    pub watchers: [Option<&'a str>; MOST_WATCHERS],
    /// Whether `-` stands for an address that is learnt.
    pub may_learn: bool,
    /// Whether they are a watcher's, who has to know player 1's address.
    pub is_watcher: bool,
}

/// A word that names no address which can be reached.
#[derive(Clone, Copy, Debug)]
pub struct Unreached<'a> {
    pub word: &'a str,
    pub why: NoAddress,
}

/// The same words with addresses in the place of names. A name that the system does not find stays, and is refused as an
/// address is.
#[derive(Drop)]
pub struct Reached {
    local: String,
    remotes: Vec<String>,
    relay: Option<SocketAddr>,
}

impl Reached {
    /// Finds the hosts of a match with so many other players. Through a relay each of them is at the relay's address, and the
    /// own address is any of its IP version unless the words name one.
    pub fn of<R: Net + AllocGlobal>(
        rt: &R,
        named: &Named<'_, '_>,
        others: u8,
    ) -> Result<Reached, AllocError> {
        let own = named.local.parse::<SocketAddr>().ok();
        let mut remotes = Vec::new(rt.alloc());
        let Some(relay) = named.relay else {
            for remote in named.remotes.unwrap_or(&[]) {
                remotes.push(found_at(rt, remote, own)?)?;
            }
            return Ok(Reached {
                local: format!(in rt.alloc(); "{}", named.local)?,
                remotes,
                relay: None,
            });
        };
        let found = found_at(rt, relay, own)?;
        for _ in 0..others {
            remotes.push(format!(in rt.alloc(); "{found}")?)?;
        }
        let local = if named.local.is_empty() {
            any_of(!found.as_str().starts_with('['))
        } else {
            named.local
        };
        Ok(Reached {
            local: format!(in rt.alloc(); "{local}")?,
            remotes,
            relay: found.as_str().parse::<SocketAddr>().ok(),
        })
    }

    /// The own address.
    pub fn local(&self) -> &str {
        self.local.as_str()
    }

    /// The relay's address, if the match goes through one that has one.
    pub fn relay(&self) -> Option<SocketAddr> {
        self.relay
    }

    /// An address that two of the players have, if there is one. Through a relay all are at the relay's.
    pub fn shared(&self) -> Option<SocketAddr> {
        if self.relay.is_some() {
            return None;
        }
        for place in 0..self.remotes.len() {
            let remote = self.remotes[place].as_str();
            let is_own = is_same_place(self.local.as_str(), remote);
            if is_own
                || self.remotes[..place]
                    .iter()
                    .any(|it| is_same_place(it.as_str(), remote))
            {
                return remote.parse::<SocketAddr>().ok();
            }
        }
        None
    }

    /// The first other player's address; empty if there is none.
    pub fn remote(&self) -> &str {
        match self.remotes.first() {
            Some(remote) => remote.as_str(),
            None => "",
        }
    }

    /// The other players' addresses.
    pub fn remotes(&self, alloc: Global) -> Result<Vec<&str>, AllocError> {
        let mut words = Vec::new(alloc);
        for remote in &self.remotes {
            words.push(remote.as_str())?;
        }
        Ok(words)
    }
}

impl<'a> Named<'_, 'a> {
    /// The first of these words that names no address which can be reached, if any, and why.
    pub fn refused<R: Net>(&self, rt: &R) -> Option<Unreached<'a>> {
        let Some(relay) = self.relay else {
            let Ok(own) = self.local.parse::<SocketAddr>() else {
                return Some(Unreached::number(self.local));
            };
            return (&*self)
                .refused_remote(rt, own)
                .or((&*self).refused_watcher(self.local));
        };
        let found = address_at(rt, relay, None);
        let Some(address) = found.filter(|it| it.port() != 0) else {
            return Some(Unreached::host(relay, found.is_some()));
        };
        let local = if self.local.is_empty() {
            any_of(address.is_ipv4())
        } else {
            self.local
        };
        let Ok(own) = local.parse::<SocketAddr>() else {
            return Some(Unreached::number(local));
        };
        if is_reached(rt, relay, own) {
            (&*self).refused_watcher(local)
        } else {
            Some(Unreached::new(self.local, NoAddress::OtherThanRelay))
        }
    }

    /// The first other player's word that names no address which can be reached from the own one.
    fn refused_remote<R: Net>(&self, rt: &R, own: SocketAddr) -> Option<Unreached<'a>> {
        for remote in self.remotes.unwrap_or(&[]) {
            if *remote != LEARNT {
                let is_found = address_at(rt, remote, None).is_some();
                if !is_found || !is_reached(rt, remote, own) {
                    return Some(Unreached::host(remote, is_found));
                }
            } else if !self.may_learn {
                return Some(Unreached::new(remote, self.learnt()));
            }
        }
        None
    }

    /// The first watcher's word that is refused beside this own address.
    fn refused_watcher(&self, local: &'a str) -> Option<Unreached<'a>> {
        match refused_address(local, &[], self.watchers, self.may_learn) {
            Some(LEARNT) => Some(Unreached::new(LEARNT, self.learnt())),
            Some(word) => Some(Unreached::number(word)),
            None => None,
        }
    }

    /// Why no address is learnt.
    fn learnt(&self) -> NoAddress {
        if self.is_watcher {
            NoAddress::LearntByWatcher
        } else {
            NoAddress::Learnt
        }
    }
}

impl<'a> Unreached<'a> {
    fn new(word: &'a str, why: NoAddress) -> Self {
        Unreached { word, why }
    }

    /// A word that is refused where only a number is taken.
    fn number(word: &'a str) -> Self {
        Unreached::new(word, NoAddress::of(word, Wanted::Number))
    }

    /// A word that is refused where a name is taken too, and whether the system finds a host of this name.
    fn host(word: &'a str, is_found: bool) -> Self {
        Unreached::new(word, NoAddress::of(word, Wanted::Host { is_found }))
    }
}

/// Whether two words name one port of one host: they spell one address whose port is not 0, or name it by one name. A word
/// that stands for an address to be learnt names none, and a word without a port is none.
pub fn is_same_place(one: &str, other: &str) -> bool {
    if one == LEARNT || !one.contains(':') {
        return false;
    }
    match (one.parse::<SocketAddr>(), other.parse::<SocketAddr>()) {
        (Ok(one), Ok(other)) => one == other && one.port() != 0,
        _ => one == other,
    }
}

/// Whether a word names a host that can be reached from the own address.
fn is_reached<R: Net>(rt: &R, word: &str, own: SocketAddr) -> bool {
    match address_at(rt, word, Some(own)) {
        Some(address) => address.port() != 0 && address.is_ipv4() == own.is_ipv4(),
        None => false,
    }
}

/// The address that a word spells or names, as a word; the word itself if there is none.
fn found_at<R: Net + AllocGlobal>(
    rt: &R,
    word: &str,
    own: Option<SocketAddr>,
) -> Result<String, AllocError> {
    match address_at(rt, word, own) {
        Some(address) => format!(in rt.alloc(); "{address}"),
        None => format!(in rt.alloc(); "{word}"),
    }
}

/// The word for any port at all addresses of this machine, of an IP version.
fn any_of(is_ipv4: bool) -> &'static str {
    if is_ipv4 { "0.0.0.0:0" } else { "[::]:0" }
}
