//! HMAC-SHA256.
ghost use Rattle.std.specs.Prelude.{◌≡◌, ◌≤◌, ◌-◌, ◌++◌, length, replicate};
ghost use Rattle.sha2.specs.Sha256.{sha256};
ghost use Rattle.c8_transport.specs.Hmac.{key_block, xor_each, hmac};

use sha2::{Digest, Sha256};

/// How many bytes SHA-256 takes in at a time.
const BLOCK_LENGTH: usize = 64;

/// How many bytes a digest has.
pub(crate) const DIGEST_LENGTH: usize = 32;

const INNER_PAD: u8 = 0x36;

const OUTER_PAD: u8 = 0x5c;

/// HMAC-SHA256 (RFC 2104, FIPS 198-1) of a message. The key and the message have any length.
pub fn hmac(key: &[u8], message: &[u8]) -> [u8; DIGEST_LENGTH]
    ensures { result ≡ hmac key.now message.now }
{
    hmac_of_both(key, message, &[])
}

/// HMAC-SHA256 of two pieces taken as one message.
#[tactic(auto, unfolding(crate::specs::Hmac::hmac))]
pub(crate) fn hmac_of_both(key: &[u8], first: &[u8], second: &[u8]) -> [u8; DIGEST_LENGTH]
    ensures { result ≡ hmac key.now (first.now ++ second.now) }
{
    let block = key_block(key);
    let inner = digest_of(&xor_each(INNER_PAD, block), first, second);
    digest_of(&xor_each(OUTER_PAD, block), &inner, &[])
}

fn key_block(key: &[u8]) -> [u8; BLOCK_LENGTH]
    ensures { result ≡ key_block key.now }
{
    if key.len() > BLOCK_LENGTH {
        return filled_up(&Sha256::digest(key));
    }
    filled_up(key)
}

/// A short key, and zeros to the end of the block.
#[tactic(auto, using(crate::proofs::SealLemmas::zeros_behind))]
fn filled_up(key: &[u8]) -> [u8; BLOCK_LENGTH]
    requires { length key.now ≤ 64 }
    ensures { result ≡ key.now ++ replicate (64 - length key.now) 0 }
{
    let mut block = [0; BLOCK_LENGTH];
    block[..key.len()].copy_from_slice(key);
    block
}

fn xor_each(pad: u8, block: [u8; BLOCK_LENGTH]) -> [u8; BLOCK_LENGTH]
    ensures { result ≡ xor_each pad block }
{
    let mut block = block;
    for byte in &mut block {
        *byte ^= pad;
    }
    block
}

/// The digest of three pieces taken as one message.
fn digest_of(first: &[u8], second: &[u8], third: &[u8]) -> [u8; DIGEST_LENGTH]
    ensures { result ≡ sha256 (first.now ++ second.now ++ third.now) }
{
    let mut hasher = Sha256::new();
    hasher.update(first);
    hasher.update(second);
    hasher.update(third);
    hasher.finalize()
}
