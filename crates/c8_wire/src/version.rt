//! The version of the format, byte 2 of a datagram.
ghost use Rattle.std.specs.Prelude.{◌≡◌, ◌<◌, length};
ghost use Rattle.c8_wire.specs.Reading.{version_at};

use crate::layout::VERSION_AT;
use c8_game::WireVersion;

/// Returns the version in byte 2: 2 for 2, and 1 for any other value.
pub(crate) fn version_in(bytes: &[u8]) -> WireVersion
    requires { 2 < length bytes.now }
    ensures { result ≡ version_at bytes.now }
{
    if bytes[VERSION_AT] == WireVersion::Two.number() {
        WireVersion::Two
    } else {
        WireVersion::One
    }
}
