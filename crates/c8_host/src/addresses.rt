//! The addresses of this machine.

use std::alloc::{AllocError, Global};

/// Where the system lists its IPv4 addresses.
pub(crate) const LIST: &str = "/proc/net/fib_trie";

/// Before an address.
const ADDRESS: &str = "|-- ";

/// In the line below an address of this machine.
const LOCAL: &str = "/32 host LOCAL";

/// How the addresses begin that no other machine reaches.
const LOOPBACK: &str = "127.";

/// How many addresses are returned at most.
const MOST: usize = 4;

/// Returns the IPv4 addresses of this machine in the system's list of routes (the text of `/proc/net/fib_trie`), without
/// loopback, each once, at most four.
pub fn own_addresses(alloc: Global, list: &str) -> Result<Vec<&str>, AllocError> {
    let mut found: Vec<&str> = Vec::new(alloc);
    let mut address = "";
    for line in list.lines() {
        let line = line.trim();
        if let Some(word) = line.strip_prefix(ADDRESS) {
            address = word;
        } else if line == LOCAL && is_new(&found, address) {
            found.push(address)?;
        }
    }
    Ok(found)
}

/// Whether an address is one to add.
fn is_new(found: &[&str], address: &str) -> bool {
    found.len() < MOST
        && !address.starts_with(LOOPBACK)
        && !found.iter().any(|other| *other == address)
}
