//! A slot: a gate and a body after it.
ghost use Rattle.std.specs.Prelude.{◌≡◌, [], ◌∷◌, ◌++◌};
ghost use Rattle.c8_log.specs.Slots.{closed_gate};

/// The length of a body in bytes.
pub const BODY_LENGTH: usize = 143;

/// The length of a slot in bytes: its gate and its body.
pub const SLOT_LENGTH: usize = 144;

/// The same, as a distance on a disk.
pub(crate) const SLOT: u32 = SLOT_LENGTH as u32;

/// The gate of a slot that counts. Any other value means that the gate is closed.
pub const OPEN_GATE: u8 = 0xa5;

/// The value that is written to close a gate.
pub const CLOSED_GATE: u8 = 0;

/// A slot that was read. Its body borrows from the block.
#[derive(Clone, Copy, Debug)]
pub struct Slot<'b> {
    pub body: &'b [u8; BODY_LENGTH],
}

/// Returns a body and the closed gate of the next slot.
pub(crate) fn with_closed_gate(body: &[u8; BODY_LENGTH]) -> [u8; SLOT_LENGTH]
    ensures { result ≡ body.now ++ closed_gate ∷ [] }
{
    let mut bytes = [CLOSED_GATE; SLOT_LENGTH];
    bytes[..BODY_LENGTH].copy_from_slice(body);
    bytes
}
