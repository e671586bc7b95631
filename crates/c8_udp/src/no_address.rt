//! Why a word is no address that can be reached.

use std::net::{Ipv6Addr, SocketAddr};
use thiserror::Error;

/// The word for an address that is learnt.
pub const LEARNT: &str = "-";

/// Why a word is no address that can be reached.
#[derive(Clone, Copy, Debug, PartialEq, Eq, Error)]
pub enum NoAddress {
    #[error("an address is empty: give one such as 127.0.0.1:4001")]
    Empty,
    /// An address is to be learnt in a match without a secret.
    #[error("an address is learnt from sealed packets: give --secret")]
    Learnt,
    /// An address is to be learnt by a watcher.
    #[error("a watcher learns no address: give player 1's")]
    LearntByWatcher,
    /// A name where only a number may stand.
    #[error("a name; give a number such as 127.0.0.1:4001")]
    Name,
    #[error("the system finds no host of this name")]
    Unknown,
    #[error("a link is for a browser; give the address that stands in it, as 127.0.0.1:4001")]
    Link,
    #[error("no host before the port: write it as 127.0.0.1:4001")]
    NoHost,
    #[error("a port alone: write the host before it, as 127.0.0.1:4001")]
    PortAlone,
    #[error("no port: write it as 127.0.0.1:4001")]
    NoPort,
    #[error("a port is a number from 1 to 65535")]
    Port,
    #[error("an address of IP version 6 stands in brackets, as [::1]:4001")]
    Brackets,
    #[error("port 0 is nobody's: give the port of the other program")]
    PortZero,
    #[error("of another IP version than LOCAL")]
    OtherVersion,
    #[error("of another IP version than the relay")]
    OtherThanRelay,
    #[error("not an address such as 127.0.0.1:4001 or [::1]:4001")]
    Malformed,
}

/// What is wanted where a refused word stands.
#[derive(Clone, Copy, Debug, PartialEq, Eq)]
pub enum Wanted {
    /// Only a number: LOCAL, or a watcher's address.
    Number,
    /// A number or a name: REMOTE or the relay's address, and the system finds a host of this name, or none.
    Host { is_found: bool },
}

impl NoAddress {
    /// Returns what is wrong with a word that is refused where this is wanted.
    pub fn of(word: &str, wanted: Wanted) -> NoAddress {
        if word.is_empty() {
            return NoAddress::Empty;
        }
        if let Ok(address) = word.parse::<SocketAddr>() {
            return NoAddress::out_of_reach(address.port());
        }
        if word.split_once("://").is_some() {
            return NoAddress::Link;
        }
        if word.parse::<Ipv6Addr>().is_ok() {
            return NoAddress::Brackets;
        }
        match word.rsplit_once(':') {
            Some(_) if word.ends_with(']') => NoAddress::NoPort,
            Some((host, port)) => NoAddress::of_parts(host, port, wanted),
            None if word.parse::<u16>().is_ok() => NoAddress::PortAlone,
            None => NoAddress::NoPort,
        }
    }

    /// Returns what is wrong with a host and a port that spell no address.
    fn of_parts(host: &str, port: &str, wanted: Wanted) -> NoAddress {
        if host.is_empty() {
            return NoAddress::NoHost;
        }
        let is_bracketed = host.starts_with('[') && host.ends_with(']');
        if host.contains(':') && !is_bracketed {
            return NoAddress::Malformed;
        }
        match (port.parse::<u16>(), wanted) {
            (Err(_), _) => NoAddress::Port,
            (Ok(port), Wanted::Host { is_found: true }) => NoAddress::out_of_reach(port),
            (Ok(_), _) if !is_name(host) => NoAddress::Malformed,
            (Ok(_), Wanted::Number) => NoAddress::Name,
            (Ok(_), Wanted::Host { .. }) => NoAddress::Unknown,
        }
    }

    /// Returns why nobody is reached at this port of an address.
    fn out_of_reach(port: u16) -> NoAddress {
        if port == 0 {
            NoAddress::PortZero
        } else {
            NoAddress::OtherVersion
        }
    }
}

/// Whether a word can be the name of a host: it has a letter, and else digits, hyphens, underscores and points.
fn is_name(word: &str) -> bool {
    let bytes = word.as_bytes();
    bytes.iter().any(|byte| byte.is_ascii_alphabetic())
        && bytes.iter().all(|byte| is_of_name(*byte))
}

/// Whether a byte may stand in the name of a host.
fn is_of_name(byte: u8) -> bool {
    byte.is_ascii_alphanumeric() || matches!(byte, b'-' | b'_' | b'.')
}
