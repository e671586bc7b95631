//! Which library this is.
ghost use Rattle.std.specs.Prelude.{◌≡◌};
ghost use Rattle.c8_engine.specs.Version.{version};

/// The version of the library, as `C8_VERSION_NUMBER` of `embed/c8.h`: its three numbers, a byte each, the first one highest. `tools/docs`
/// compares.
#[unsafe(no_mangle)]
pub extern "C" fn c8_version() -> u32
    ensures version { result ≡ version }
{
    0x000300
}
