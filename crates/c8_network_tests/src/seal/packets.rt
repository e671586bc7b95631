//! The tags of another implementation.

use c8_transport::{Key, LONGEST_SEALED};

const SESSION: u64 = 0x0123_4567_89ab_cdef;

/// The bytes 0 to 31.
fn secret() -> [u8; 32] {
    let mut secret = [0; 32];
    for (place, byte) in secret.iter_mut().enumerate() {
        *byte = place as u8;
    }
    secret
}

/// The counter of the first packet of epoch 1.
const COUNTER: u64 = 1 << 32;

/// Whether the sealed packet of `datagram` has its counter and a tag, in lower-case hexadecimal digits.
fn has_tag(key: &Key, tag: &[u8; 32]) -> bool {
    let (mut packet, mut text) = ([0; LONGEST_SEALED], [0; 32]);
    let size = key.seal(COUNTER, b"datagram", &mut packet);
    let counter = COUNTER.to_be_bytes();
    size == 32
        && packet[8..16] == counter[..]
        && hex::encode_to_slice(&packet[16..32], &mut text).is_ok()
        && text == *tag
}

#[test]
fn tags_as_another_implementation_does(rt: HostRuntime) {
    let (of_match, of_watchers) = (
        Key::of_match(&secret(), SESSION),
        Key::of_watchers(&secret(), SESSION),
    );
    assert!(rt; has_tag(&of_match, b"fc94b67c128e324ff6157100daeaac29"));
    assert!(rt; has_tag(&of_watchers, b"d60cbcafbd58b90b393125ce93a53897"));
}
