//! The texts of secrets.

use crate::seal::loops::{Has, Loop, ONE, PLAYERS, SESSION, TWO, WATCHERS, sealer_of};
use c8_transport::{Sealed, Secret, SecretError, Secrets, Wire};

/// Whether a text is that of a secret.
fn is_read(text: &[u8]) -> bool {
    match Secret::read(text) {
        Ok(_) => true,
        Err(error) => error != SecretError::Bad,
    }
}

/// Texts that are none: a digit too few or too many, a sign that is none, a second line feed, a carriage return, a space.
static BAD: [&[u8]; 8] = [
    b"",
    b"\n",
    b"000102030405060708090a0b0c0d0e0f101112131415161718191a1b1c1d1e1",
    b"000102030405060708090a0b0c0d0e0f101112131415161718191a1b1c1d1e1f0",
    b"000102030405060708090a0b0c0d0e0f101112131415161718191a1b1c1d1e1g",
    b"000102030405060708090a0b0c0d0e0f101112131415161718191a1b1c1d1e1f\n\n",
    b"000102030405060708090a0b0c0d0e0f101112131415161718191a1b1c1d1e1f\r\n",
    b" 000102030405060708090a0b0c0d0e0f101112131415161718191a1b1c1d1e1f",
];

fn bad() -> &'static [&'static [u8]] {
    &BAD
}

/// Whether the secret of the bytes 0 to 31 is read as these: the tag of a datagram is that of another implementation.
fn is_known() -> Option<bool> {
    let mut wire = Sealed::over(Loop::new(), sealer_of(Has::Players, ONE, SESSION)?);
    wire.send(TWO, b"datagram").ok()?;
    let below = wire.into_below();
    let letter = below.waiting.get(0)?;
    let mut tag = [0; 32];
    hex::encode_to_slice(&letter.bytes[16..32], &mut tag).ok()?;
    Some(letter.size == 32 && tag == *b"fc94b67c128e324ff6157100daeaac29")
}

/// Whether two equal secrets are refused, and two others not.
fn are_told_apart() -> Option<bool> {
    let again = Secrets::of_both(Secret::read(WATCHERS).ok()?, Secret::read(WATCHERS).ok()?);
    let others = Secrets::of_both(Secret::read(PLAYERS).ok()?, Secret::read(WATCHERS).ok()?);
    Some(again.err() == Some(SecretError::Same) && others.is_ok())
}

#[test]
fn secrets_are_read(rt: HostRuntime) {
    assert!(rt; is_read(PLAYERS) && is_read(WATCHERS));
    for (place, text) in bad().iter().enumerate() {
        assert!(rt; !is_read(text), "text {place}");
    }
    assert!(rt; is_known() == Some(true));
    assert!(rt; are_told_apart() == Some(true));
    assert!(rt;
        Secret::text(&[0xa5; 32])
            .chunks(2)
            .all(|byte| byte == b"a5".as_slice())
    );
}
