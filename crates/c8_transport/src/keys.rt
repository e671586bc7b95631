//! The keys of a match's packets.

ghost use Rattle.std.specs.Prelude.{slice_index_or, ◌≡◌, ◌≢◌, ℕ, List, Some, None, MatchOption, IfOk, IfErr, OnOk, option_map};
ghost use Rattle.c8_transport.specs.Seal.{match_key, watch_key};
ghost use Rattle.c8_wire.specs.Kinds.{kind_of_code};
ghost use Rattle.c8_transport.specs.Opened.{AreKeysOf, IsSealing, key_for, key_of};
ghost use Rattle.c8_transport.specs.declared.error.SecretError.TheVariants.{Same};

use crate::error::SecretError;
use crate::key::{Key, LONGEST_SEALED, Opened, SEAL_LENGTH};
use crate::secret::Secret;
use c8_wire::{DatagramKind, KeyOf, Seat};

/// Where the kind of a datagram stands.
const KIND_AT: usize = 3;

/// The secrets that this machine has: that of the players, and that of the watchers and player 1.
#[derive(Drop)]
pub struct Secrets {
    pub players: Option<Secret>,
    pub watchers: Option<Secret>,
}

impl Secrets {
    /// The secrets of player 1 of a match with watchers. `Same` if both are the same.
    pub fn of_both(players: Secret, watchers: Secret) -> Result<Secrets, SecretError>
        ensures both { IfOk result (λ secrets. (secrets.players ≡ Some players) × (secrets.watchers ≡ Some watchers)) }
        ensures differ { OnOk result (players ≢ watchers) }
        ensures same { IfErr result (λ error. (error ≡ Same) × (players ≡ watchers)) }
    {
        if players.is_same(&watchers) {
            return Err(SecretError::Same);
        }
        Ok(Secrets {
            players: Some(players),
            watchers: Some(watchers),
        })
    }
}

/// The keys of a match's packets, as far as this machine has the secrets.
#[derive(Drop)]
pub struct SealKeys {
    players: Option<Key>,
    watchers: Option<Key>,
}

impl SealKeys {
    /// The keys of these secrets in a session.
    pub fn of(secrets: &Secrets, session: u64) -> SealKeys
        ensures { AreKeysOf secrets.now session result }
    {
        SealKeys {
            players: key_of_players(&secrets.players, session),
            watchers: key_of_watchers(&secrets.watchers, session),
        }
    }

    /// The key of a datagram, by its kind.
    pub(crate) fn key_for(&self, datagram: &[u8]) -> Option<&Key>
        ensures { MatchOption result (key_for self.now datagram.now ≡ None)
            (λ key. key_for self.now datagram.now ≡ Some key.now) }
    {
        match key_of(datagram) {
            KeyOf::Players => self.players.as_ref(),
            KeyOf::Watchers => self.watchers.as_ref(),
        }
    }

    /// The counter and the datagram of a packet; `None` if the packet is not sealed with the key of its kind, or has more
    /// than 198 bytes.
    pub(crate) fn open<'a>(&self, packet: &'a [u8]) -> Option<Opened<'a>>
        ensures { MatchOption result
            ((counter : ℕ) (datagram : List ℕ) → IsSealing self.now packet.now counter datagram → ⊥)
            (λ opened. IsSealing self.now packet.now opened.counter opened.datagram.now) }
    {
        if packet.len() < SEAL_LENGTH {
            return None;
        }
        if packet.len() > LONGEST_SEALED {
            return None;
        }
        let (datagram, _seal) = packet.split_at(packet.len() - SEAL_LENGTH);
        let Some(key) = self.key_for(datagram) else {
            return None;
        };
        match key.open(packet) {
            Some(opened) => Some(opened),
            None => None,
        }
    }
}

/// What it takes to seal the packets of a player or watcher in a session.
#[derive(Drop)]
pub struct Seal {
    pub keys: SealKeys,
    /// The own seat.
    pub seat: Seat,
    pub session: u64,
}

/// Whose key seals a datagram, by its kind. What is no datagram counts as the players'.
fn key_of(datagram: &[u8]) -> KeyOf
    ensures { result ≡ key_of (kind_of_code (slice_index_or datagram.now 3 0)) }
{
    let code = match datagram.get(KIND_AT) {
        Some(code) => *code,
        None => 0,
    };
    match DatagramKind::try_from(code) {
        Ok(kind) => kind.shape().key,
        Err(_) => KeyOf::Players,
    }
}

fn key_of_players(secret: &Option<Secret>, session: u64) -> Option<Key>
    ensures { result ≡ option_map (λ secret. match_key secret session) secret.now }
{
    match secret {
        Some(secret) => Some(Key::of_match(&secret.bytes, session)),
        None => None,
    }
}

fn key_of_watchers(secret: &Option<Secret>, session: u64) -> Option<Key>
    ensures { result ≡ option_map (λ secret. watch_key secret session) secret.now }
{
    match secret {
        Some(secret) => Some(Key::of_watchers(&secret.bytes, session)),
        None => None,
    }
}
