//! Cookies: a sender that repeats one receives at its own address.
ghost use Rattle.std.specs.Prelude.{◌≡◌, ◌↔◌, IsTrue};
ghost use Rattle.c8_relay.specs.Cookies.{cookie_of, HasShown};

use crate::address::Address;
use crate::control::COOKIE_LENGTH;
use c8_transport::hmac;

/// How many bytes the key of cookies has.
pub const KEY_LENGTH: usize = 32;

/// The cookie of an address in a slot of time. That of a connection is 0.
#[tactic(auto, unfolding(crate::specs::Cookies::cookie_of))]
pub(crate) fn cookie_of(key: &[u8; KEY_LENGTH], address: Address, slot: u64) -> [u8; COOKIE_LENGTH]
    ensures { result ≡ cookie_of key.now address slot }
{
    match address {
        Address::Udp { host, port } => cookie_of_port(key, host, port, slot),
        Address::Connection { .. } => [0; COOKIE_LENGTH],
    }
}

/// The cookie of a UDP port: the first 16 bytes of HMAC-SHA256.
#[tactic(auto, unfolding(crate::specs::Cookies::cookie_of))]
fn cookie_of_port(key: &[u8; KEY_LENGTH], host: u128, port: u16, slot: u64) -> [u8; COOKIE_LENGTH]
    ensures { result ≡ cookie_of key.now (Address.Udp host port) slot }
{
    let place = (u128::from(port) << 64) + u128::from(slot);
    let key = hmac(key, &host.to_be_bytes());
    let mut cookie = [0; COOKIE_LENGTH];
    cookie.copy_from_slice(&hmac(&key, &place.to_be_bytes())[..COOKIE_LENGTH]);
    cookie
}

/// Whether an address has shown that it receives, by a cookie of this slot or the one before.
pub(crate) fn has_shown(
    key: &[u8; KEY_LENGTH],
    slot: u64,
    address: Address,
    newest: &[u8; COOKIE_LENGTH],
    cookie: &[u8; COOKIE_LENGTH],
) -> bool
    requires { newest.now ≡ cookie_of key.now address slot }
    ensures { IsTrue result ↔ HasShown key.now slot address cookie.now }
{
    match address {
        Address::Connection { .. } => true,
        Address::Udp { .. } => {
            *cookie == *newest || *cookie == cookie_of(key, address, slot.saturating_sub(1))
        }
    }
}
