//! Addresses by the names of hosts.

use std::net::{Net, SocketAddr, ToSocketAddrs};

/// Returns the address that a word spells, or else the first one that the system finds for its host and port, as
/// `relay.example.org:4001`. With an own address it has the same IP version. `None` if there is none, or if the system
/// does not answer.
pub fn address_at<R: Net>(rt: &R, word: &str, own: Option<SocketAddr>) -> Option<SocketAddr> {
    if let Ok(address) = word.parse::<SocketAddr>() {
        return Some(address);
    }
    let Ok(found) = word.to_socket_addrs(rt) else {
        return None;
    };
    for address in found {
        if own.is_none_or(|own| own.is_ipv4() == address.is_ipv4()) {
            return Some(address);
        }
    }
    None
}
