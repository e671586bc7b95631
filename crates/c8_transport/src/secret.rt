//! The text of a secret.

ghost use Rattle.std.specs.Prelude.{◌≡◌, ◌↔◌, true, MatchResult};
ghost use Rattle.c8_transport.specs.Seal.{room_name, secret_of_watchers};
ghost use Rattle.hex.specs.Hex.{encode_lower};
ghost use Rattle.c8_transport.specs.SecretText.{IsSecretText, IsNoSecretText, digits_of};

use crate::error::SecretError;
use crate::key::SECRET_LENGTH;
use crate::tagging::{hmac, hmac_of_both};
use std::marker::Model;

/// How many digits the text of a secret has.
const DIGITS: usize = 2 * SECRET_LENGTH;

const LINE_FEED: u8 = 0x0a;

/// How many bytes the name of a room at a relay has.
pub const NAME_LENGTH: usize = 16;

/// What the players of a match share, or its watchers with player 1: 32 bytes. It prints nothing of itself.
#[derive(Drop)]
pub struct Secret {
    pub(crate) bytes: [u8; SECRET_LENGTH],
}

impl Model for Secret {
    ghost use Rattle.std.specs.Prelude.{List, ℕ};

    ghost Value = { List ℕ };

    ghost view = { λ secret. secret.bytes };
}

impl Secret {
    /// Reads the text of a secret: 64 hexadecimal digits of either case, and at most one LF after them. Anything else is
    /// `Bad`.
    pub fn read(text: &[u8]) -> Result<Secret, SecretError>
        ensures { MatchResult result (λ secret. IsSecretText text.now secret) (λ error. IsNoSecretText text.now error) }
    {
        let mut bytes = [0; SECRET_LENGTH];
        match hex::decode_to_slice(digits_of(text), &mut bytes) {
            Ok(()) => Ok(Secret { bytes }),
            Err(_) => Err(SecretError::Bad),
        }
    }

    /// The secret of these bytes.
    pub fn of(bytes: &[u8; SECRET_LENGTH]) -> Secret
        ensures { result ≡ bytes.now }
    {
        Secret { bytes: *bytes }
    }

    /// The text of a secret of these bytes: 64 lower-case hexadecimal digits, without a LF.
    pub fn text(bytes: &[u8; SECRET_LENGTH]) -> [u8; DIGITS]
        ensures { result ≡ encode_lower bytes.now }
    {
        let mut text = [0; DIGITS];
        let _ = hex::encode_to_slice(bytes, &mut text);
        text
    }

    /// The name of a match's room at a relay: the first 16 bytes of HMAC-SHA256, with this secret as its key, over the
    /// ASCII bytes `c8play relay 1` and the session, most significant byte first. Who lacks the secret cannot tell it.
    pub fn room_name(&self, session: u64) -> [u8; NAME_LENGTH]
        ensures { result ≡ room_name self.now session }
    {
        let digest = hmac_of_both(&self.bytes, b"c8play relay 1", &session.to_be_bytes());
        let mut name = [0; NAME_LENGTH];
        name.copy_from_slice(&digest[..NAME_LENGTH]);
        name
    }

    /// The watchers' secret of a match to which a link invites: HMAC-SHA256, with this secret as its key, over the ASCII
    /// bytes `c8play watchers 1`. Who has the watchers' secret cannot tell this one.
    pub fn for_watchers(&self) -> Secret
        ensures { result ≡ secret_of_watchers self.now }
    {
        Secret {
            bytes: hmac(&self.bytes, b"c8play watchers 1"),
        }
    }

    /// Its 32 bytes, for a link that invites to the match.
    pub fn bytes(&self) -> &[u8; SECRET_LENGTH]
        ensures { result.now ≡ self.now }
    {
        &self.bytes
    }

    /// Whether two secrets are the same.
    pub(crate) fn is_same(&self, other: &Secret) -> bool
        ensures { (result ≡ true) ↔ (self.now ≡ other.now) }
    {
        self.bytes == other.bytes
    }
}

/// The text without one LF at its end.
fn digits_of(text: &[u8]) -> &[u8]
    ensures { result.now ≡ digits_of text.now }
{
    let end = text.len();
    if end > 0 && text[end - 1] == LINE_FEED {
        &text[..end - 1]
    } else {
        text
    }
}
