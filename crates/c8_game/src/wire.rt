//! The versions of the datagrams.
ghost use Rattle.std.specs.Prelude.{◌≡◌};
ghost use Rattle.c8_game.specs.Wire.{version_number, version_bytes};

/// The version of the datagrams that the peers of a game send.
#[derive(Clone, Copy, Debug, PartialEq, Eq, Hash)]
pub enum WireVersion {
    /// A run of inputs is written as one key set for each input.
    One,
    /// A run of inputs is written as one pair for each stretch of equal key sets.
    Two,
}

impl WireVersion {
    /// Returns the version's number in a game text, 1 or 2.
    pub fn number(self) -> u8
        ensures { result ≡ version_number self }
    {
        match self {
            WireVersion::One => 1,
            WireVersion::Two => 2,
        }
    }

    /// Returns the bytes that the version adds to those that the game's id is the digest of.
    pub(crate) fn id_bytes(self) -> &'static [u8]
        ensures { result.now ≡ version_bytes self }
    {
        match self {
            WireVersion::One => &[],
            WireVersion::Two => &[2],
        }
    }
}
