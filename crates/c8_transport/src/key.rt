//! The key of a match's packets.
ghost use Rattle.std.specs.Prelude.{◌≡◌, ◌≢◌, ◌≤◌, ◌+◌, ◌++◌, ℕ, List, true, MatchOption, MatchBool, length, take, drop};
ghost use Rattle.std.specs.Int.{w64, to_be_bytes};
ghost use Rattle.c8_transport.specs.Seal.{match_key, watch_key, tag, tagged, counted, sealed};

use crate::tagging::{DIGEST_LENGTH, hmac, hmac_of_both};
use std::marker::Model;

/// How many bytes a secret has.
pub const SECRET_LENGTH: usize = 32;

/// How many bytes the counter of a packet has.
const COUNTER_LENGTH: usize = 8;

/// How many bytes a tag has.
const TAG_LENGTH: usize = 16;

/// How many bytes stand behind the datagram in a sealed packet: its counter, and the tag.
pub const SEAL_LENGTH: usize = COUNTER_LENGTH + TAG_LENGTH;

/// The most bytes that a datagram has.
pub const LONGEST_OPEN: usize = 174;

/// The most bytes that a sealed packet has.
pub const LONGEST_SEALED: usize = LONGEST_OPEN + SEAL_LENGTH;

const LABEL_LENGTH: usize = 15;

const WATCH_LABEL_LENGTH: usize = 16;

const SESSION_LENGTH: usize = 8;

/// Seals and opens packets. It prints nothing of itself, so no message can show a key.
#[derive(Drop)]
pub struct Key {
    bytes: [u8; DIGEST_LENGTH],
}

/// What a sealed packet holds; the datagram is lent from the packet.
#[derive(Clone, Copy, Debug, PartialEq, Eq)]
pub struct Opened<'a> {
    pub counter: u64,
    pub datagram: &'a [u8],
}

impl Model for Key {
    ghost use Rattle.std.specs.Prelude.{ℕ, List};

    ghost Value = { List ℕ };

    ghost view = { λ k. k.bytes };
}

impl Key {
    /// The key of the players' packets in a session: HMAC-SHA256, with the players' secret as its key, over
    /// the ASCII bytes `c8play sealed 2` and the session, most significant byte first.
    pub fn of_match(secret: &[u8; SECRET_LENGTH], session: u64) -> Key
        ensures { result ≡ match_key secret.now session }
    {
        Key {
            bytes: hmac_of_both(secret, b"c8play sealed 2", &session.to_be_bytes()),
        }
    }

    /// The key of the packets between player one and its watchers: as that of the players, from the secret of
    /// the watchers, with `c8play watched 2` in the label's place.
    pub fn of_watchers(secret: &[u8; SECRET_LENGTH], session: u64) -> Key
        ensures { result ≡ watch_key secret.now session }
    {
        Key {
            bytes: hmac_of_both(secret, b"c8play watched 2", &session.to_be_bytes()),
        }
    }

    /// Writes the sealed packet of a datagram to the front of `out`: the datagram, the counter in 8 bytes, the tag of both.
    /// Returns its length, 24 more than the datagram's. The bytes after it stay. No player or watcher may seal two
    /// packets of one session with one counter.
    pub fn seal(&self, counter: u64, datagram: &[u8], out: &mut [u8; LONGEST_SEALED]) -> usize
        requires { length datagram.now ≤ LONGEST_OPEN }
        ensures size { result ≡ length datagram.now + SEAL_LENGTH }
        ensures sealed { take result out.new ≡ sealed self.now counter datagram.now }
        ensures rest { drop result out.new ≡ drop result out.old }
    {
        let size = datagram.len();
        let end = size + SEAL_LENGTH;
        out[..size].copy_from_slice(datagram);
        out[size..end].copy_from_slice(&self.seal_of(counter, datagram));
        end
    }

    /// The bytes behind a datagram in its packet: the counter and the tag.
    fn seal_of(&self, counter: u64, datagram: &[u8]) -> [u8; SEAL_LENGTH]
        ensures { result
            ≡ to_be_bytes w64 counter ++ tag self.now (counted counter datagram.now) }
    {
        let counter = counter.to_be_bytes();
        let digest = hmac_of_both(&self.bytes, datagram, &counter);
        let mut seal = [0; SEAL_LENGTH];
        seal[..COUNTER_LENGTH].copy_from_slice(&counter);
        seal[COUNTER_LENGTH..].copy_from_slice(&digest[..TAG_LENGTH]);
        seal
    }

    /// The counter and the datagram of a sealed packet; `None` if the packet is none of this key.
    pub fn open<'a>(&self, packet: &'a [u8]) -> Option<Opened<'a>>
        ensures { MatchOption result
            ((counter : ℕ) (datagram : List ℕ) → packet.now ≢ sealed self.now counter datagram)
            (λ opened. packet.now ≡ sealed self.now opened.counter opened.datagram.now) }
    {
        let Some(counted) = self.untag(packet) else {
            return None;
        };
        if counted.len() < COUNTER_LENGTH {
            return None;
        }
        let (datagram, told) = counted.split_at(counted.len() - COUNTER_LENGTH);
        let counter = counter_of(told);
        Some(Opened { counter, datagram })
    }

    /// What stands before the tag, lent; `None` if the last 16 bytes are not the tag of those before them. All 16 are
    /// compared, whichever differ.
    fn untag<'a>(&self, packet: &'a [u8]) -> Option<&'a [u8]>
        ensures { MatchOption result
            ((bytes : List ℕ) → packet.now ≢ tagged self.now bytes)
            (λ bytes. packet.now ≡ tagged self.now bytes.now) }
    {
        if packet.len() < TAG_LENGTH {
            return None;
        }
        let (bytes, told) = packet.split_at(packet.len() - TAG_LENGTH);
        let mut tag = [0; TAG_LENGTH];
        tag.copy_from_slice(told);
        if are_same(&self.tag(bytes), &tag) {
            Some(bytes)
        } else {
            None
        }
    }

    fn tag(&self, bytes: &[u8]) -> [u8; TAG_LENGTH]
        ensures { result ≡ tag self.now bytes.now }
    {
        let mut tag = [0; TAG_LENGTH];
        tag.copy_from_slice(&hmac(&self.bytes, bytes)[..TAG_LENGTH]);
        tag
    }
}

/// The counter that 8 bytes spell, most significant byte first.
fn counter_of(bytes: &[u8]) -> u64
    requires { length bytes.now ≡ 8 }
    ensures { to_be_bytes w64 result ≡ bytes.now }
{
    let mut told = [0; COUNTER_LENGTH];
    told.copy_from_slice(bytes);
    u64::from_be_bytes(told)
}

/// Whether two tags are the same. The time does not depend on where they differ: each half is compared as
/// one number, and both are.
fn are_same(own: &[u8; TAG_LENGTH], other: &[u8; TAG_LENGTH]) -> bool
    ensures { MatchBool result (own.now ≡ other.now) (own.now ≢ other.now) }
{
    let (own_first, own_last) = halves(own);
    let (first, last) = halves(other);
    (own_first == first) & (own_last == last)
}

fn halves(tag: &[u8; TAG_LENGTH]) -> (u64, u64)
    ensures first { to_be_bytes w64 result.0 ≡ take 8 tag.now }
    ensures last { to_be_bytes w64 result.1 ≡ drop 8 tag.now }
{
    let [a, b, c, d, e, f, g, h, i, j, k, l, m, n, o, p] = *tag;
    (
        u64::from_be_bytes([a, b, c, d, e, f, g, h]),
        u64::from_be_bytes([i, j, k, l, m, n, o, p]),
    )
}
