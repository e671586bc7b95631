//! A machine's memory before the first frame.
ghost use Rattle.std.specs.Prelude.{◌≡◌, ℕ, ◌+◌, ◌<◌, ◌≤◌, length, slice_index};
ghost use Rattle.c8_machine.specs.State.{first_memory};

use crate::machine::MEMORY_SIZE;

/// The address of the program.
pub const PROGRAM_AT: usize = 0x200;

/// The address of the digit patterns.
const PATTERNS_AT: usize = 0x50;

/// The patterns of the digits 0 to F, five bytes each.
const DIGIT_PATTERNS: [u8; 80] = [
    0xf0, 0x90, 0x90, 0x90, 0xf0, // 0
    0x20, 0x60, 0x20, 0x20, 0x70, // 1
    0xf0, 0x10, 0xf0, 0x80, 0xf0, // 2
    0xf0, 0x10, 0xf0, 0x10, 0xf0, // 3
    0x90, 0x90, 0xf0, 0x10, 0x10, // 4
    0xf0, 0x80, 0xf0, 0x10, 0xf0, // 5
    0xf0, 0x80, 0xf0, 0x90, 0xf0, // 6
    0xf0, 0x10, 0x20, 0x40, 0x40, // 7
    0xf0, 0x90, 0xf0, 0x90, 0xf0, // 8
    0xf0, 0x90, 0xf0, 0x10, 0xf0, // 9
    0xf0, 0x90, 0xf0, 0x90, 0x90, // A
    0xe0, 0x90, 0xe0, 0x90, 0xe0, // B
    0xf0, 0x80, 0x80, 0x80, 0xf0, // C
    0xe0, 0x90, 0x90, 0x90, 0xe0, // D
    0xf0, 0x80, 0xf0, 0x80, 0xf0, // E
    0xf0, 0x80, 0xf0, 0x80, 0x80, // F
];

/// Returns the memory before the first frame: the digit patterns from `PATTERNS_AT` on, the program from `PROGRAM_AT`
/// on, and 0 elsewhere.
pub fn first_memory(program: &[u8]) -> [u8; MEMORY_SIZE]
    requires { length program.now ≤ 3584 }
    ensures { slice_index result ≡ first_memory program.now }
{
    let mut memory = [0; MEMORY_SIZE];
    place(&mut memory, PATTERNS_AT, &DIGIT_PATTERNS);
    place(&mut memory, PROGRAM_AT, program);
    memory
}

/// Writes the bytes from an address on.
fn place(memory: &mut [u8], from: usize, bytes: &[u8])
    requires { from + length bytes.now ≤ length memory.old }
    ensures length { length memory.new ≡ length memory.old }
    ensures placed { (k : ℕ) → k < length bytes.now
        → slice_index memory.new (from + k) ≡ slice_index bytes.now k }
    ensures before { (k : ℕ) → k < from → slice_index memory.new k ≡ slice_index memory.old k }
    ensures after { (k : ℕ) → from + length bytes.now ≤ k
        → slice_index memory.new k ≡ slice_index memory.old k }
{
    memory[from..from + bytes.len()].copy_from_slice(bytes);
}
