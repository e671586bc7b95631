//! The bytes of a machine's state, and its mark.
ghost use Rattle.std.specs.Prelude.{◌≡◌, ◌+◌, ◌^◌, ◌<◌, ◌≤◌, [], ◌∷◌, ◌++◌, length, map, take, slice_index};
ghost use Rattle.std.specs.List.{flat_map, range_with_len};
ghost use Rattle.std.specs.Int.{to_be_bytes, w16, w64};
ghost use Rattle.arrayvec.specs.ArrayVec.{array_vec_len};
ghost use Rattle.c8_screen.specs.Points.{points_of};
ghost use Rattle.c8_machine.specs.State.{state, memory_size};
ghost use Rattle.c8_digest.specs.StateBytes.{screen_bytes, places, rest_bytes, state_bytes, mark_of};
ghost use Rattle.c8_digest.specs.checked.Parts.{after_memory};

use arrayvec::ArrayVec;
use c8_machine::{MEMORY_SIZE, Machine, Stop};
use c8_screen::{HEIGHT, Screen};
use sha2::{Digest, Sha256};

/// The size of a state in bytes.
pub const STATE_LENGTH: usize = 4419;

/// The size of the parts after the memory.
const AFTER_MEMORY: usize = STATE_LENGTH - MEMORY_SIZE;

/// The size of a mark in bytes.
pub const MARK_LENGTH: usize = 8;

/// Writes the state of a machine in bytes.
///
/// The parts are the memory, V0 to VF, I, the program counter, the number of return addresses in use, 16 return
/// addresses (oldest first, 0 if not in use), the rows of the screen (the leftmost point is the highest bit), the
/// timer, the tone, the remembered keys, the register that waits or FF, the number of draws, and the number of the stop
/// or 0. Each number has its most significant byte first.
pub fn state_bytes(machine: &Machine, out: &mut [u8; STATE_LENGTH])
    ensures { out.new ≡ state_bytes (state machine.now) }
{
    out.copy_from_slice(spelled(machine).as_slice());
}

/// Returns the mark of a machine: the first 8 bytes of SHA-256 (FIPS 180-4) over the bytes of its state.
pub fn mark(machine: &Machine) -> [u8; MARK_LENGTH]
    ensures { result ≡ mark_of (state machine.now) }
{
    first_of(&Sha256::digest(spelled(machine).as_slice()))
}

/// Returns the first 8 bytes of a digest.
pub(crate) fn first_of(digest: &[u8; 32]) -> [u8; MARK_LENGTH]
    ensures { result ≡ take 8 digest.now }
{
    match digest.first_chunk() {
        Some(mark) => *mark,
        None => unreachable!(),
    }
}

pub(crate) fn spelled(machine: &Machine) -> ArrayVec<u8, STATE_LENGTH>
    ensures bytes { result.items ≡ state_bytes (state machine.now) }
    ensures length { array_vec_len result ≡ STATE_LENGTH }
{
    let mut bytes = ArrayVec::new();
    put_memory(machine.memory(), &mut bytes);
    put_after_memory(machine, &mut bytes);
    bytes
}

/// Appends the parts after the memory.
pub(crate) fn put_after_memory(machine: &Machine, out: &mut ArrayVec<u8, STATE_LENGTH>)
    requires { array_vec_len out.old + AFTER_MEMORY ≤ STATE_LENGTH }
    ensures bytes { out.new.items ≡ out.old.items ++ after_memory (state machine.now) }
    ensures size { array_vec_len out.new ≡ array_vec_len out.old + AFTER_MEMORY }
{
    put(machine.registers(), out);
    put(&machine.address().to_be_bytes(), out);
    put(&machine.counter().to_be_bytes(), out);
    put_stack(machine.stack(), out);
    put_screen(machine.screen(), out);
    put_rest(machine, out);
}

/// Appends the parts after the screen.
fn put_rest(machine: &Machine, out: &mut ArrayVec<u8, STATE_LENGTH>)
    requires { array_vec_len out.old + 14 ≤ STATE_LENGTH }
    ensures bytes { out.new.items ≡ out.old.items ++ rest_bytes (state machine.now) }
    ensures size { array_vec_len out.new ≡ array_vec_len out.old + 14 }
{
    let [k0, k1] = machine.keys().0.to_be_bytes();
    let [d0, d1, d2, d3, d4, d5, d6, d7] = machine.draws().to_be_bytes();
    let waits = machine.waits().unwrap_or(0xff);
    let stop = machine.stopped().map_or(0, Stop::number);
    let (timer, tone) = (machine.timer(), machine.tone());
    put(
        &[
            timer, tone, k0, k1, waits, d0, d1, d2, d3, d4, d5, d6, d7, stop,
        ],
        out,
    );
}

/// Appends the memory.
fn put_memory(memory: &[u8; MEMORY_SIZE], out: &mut ArrayVec<u8, STATE_LENGTH>)
    requires { array_vec_len out.old + MEMORY_SIZE ≤ STATE_LENGTH }
    ensures bytes { out.new.items
        ≡ out.old.items ++ map (slice_index memory.now) (range_with_len 0 memory_size) }
    ensures size { array_vec_len out.new ≡ array_vec_len out.old + MEMORY_SIZE }
{
    put(memory, out);
}

/// Appends the number of return addresses in use, and 16 return addresses.
fn put_stack(stack: &[u16], out: &mut ArrayVec<u8, STATE_LENGTH>)
    requires depth { length stack.now ≤ 16 }
    requires room { array_vec_len out.old + 33 ≤ STATE_LENGTH }
    ensures bytes { out.new.items ≡ out.old.items
        ++ (length stack.now ∷ []) ++ flat_map (to_be_bytes w16) (places stack.now) }
    ensures size { array_vec_len out.new ≡ array_vec_len out.old + 33 }
{
    put(&[stack.len() as u8], out);
    for n in 0..16 {
        put(&place_at(stack, n).to_be_bytes(), out);
    }
}

/// Appends the rows of a screen.
fn put_screen(screen: &Screen, out: &mut ArrayVec<u8, STATE_LENGTH>)
    requires { array_vec_len out.old + 256 ≤ STATE_LENGTH }
    ensures bytes { out.new.items ≡ out.old.items ++ screen_bytes (points_of screen.now) }
    ensures size { array_vec_len out.new ≡ array_vec_len out.old + 256 }
{
    for y in 0..HEIGHT {
        put(&row_bytes(*screen.row(y)), out);
    }
}

/// Returns a return address, 0 if it is not in use.
fn place_at(stack: &[u16], n: usize) -> u16
    ensures { result ≡ slice_index stack.now n }
{
    stack.get(n).copied().unwrap_or(0)
}

fn row_bytes(row: u64) -> [u8; 8]
    ensures bytes { result ≡ to_be_bytes w64 row }
    ensures fits { row < 2 ^ 64 }
{
    row.to_be_bytes()
}

/// Appends bytes.
pub(crate) fn put<const N: usize>(bytes: &[u8], out: &mut ArrayVec<u8, N>)
    requires { array_vec_len out.old + length bytes.now ≤ N }
    ensures bytes { out.new.items ≡ out.old.items ++ bytes.now }
    ensures size { array_vec_len out.new ≡ array_vec_len out.old + length bytes.now }
{
    let _extended = out.try_extend_from_slice(bytes);
}
