//! The instructions that set I, and that write and read memory.
ghost use Rattle.std.specs.Prelude.{◌≡◌, ◌+◌, ◌%◌, ◌<◌, ◌≤◌, length, map, slice_index};
ghost use Rattle.std.specs.List.{range_with_len};
ghost use Rattle.c8_machine.specs.Instructions.{AddAddress, PointAtDigit, StoreDigits, StoreRegisters, LoadRegisters};
ghost use Rattle.c8_machine.specs.State.{state};
ghost use Rattle.c8_machine.specs.Steps.{passed, stored, Performs};

use crate::machine::{ADDRESSES, MEMORY_SIZE, Machine, Step};

impl Machine {
    /// AMMM: sets I to the address.
    #[inline(always)]
    pub(crate) fn point_at(&mut self, to: u16) -> Step
        requires { to < MEMORY_SIZE }
        ensures step { result ≡ Step.Went }
        ensures state { state self.new ≡ record (passed (state self.old)) { address = to } }
    {
        self.counter = self.next();
        self.address = to;
        Step::Went
    }

    /// FX1E: adds VX to I modulo 1000 (hexadecimal), without a flag.
    #[inline(always)]
    pub(crate) fn add_address(&mut self, x: u8) -> Step
        requires { x < 16 }
        ensures { Performs (AddAddress x) (state self.old) (state self.new) result }
    {
        self.point_at((self.address + u16::from(self.register(x))) % ADDRESSES)
    }

    /// FX29: sets I to the address of the pattern of VX's low digit.
    #[inline(always)]
    pub(crate) fn point_at_digit(&mut self, x: u8) -> Step
        requires { x < 16 }
        ensures { Performs (PointAtDigit x) (state self.old) (state self.new) result }
    {
        self.point_at(0x50 + 5 * u16::from(self.register(x) % 16))
    }

    /// FX33: stores the three decimal digits of VX from I on, hundreds first.
    #[inline(always)]
    pub(crate) fn store_digits(&mut self, x: u8) -> Step
        requires { x < 16 }
        ensures { Performs (StoreDigits x) (state self.old) (state self.new) result }
    {
        let value = self.register(x);
        self.counter = self.next();
        store(
            &mut self.memory,
            self.address,
            &[value / 100, value / 10 % 10, value % 10],
        );
        Step::Went
    }

    /// FX55: stores V0 to VX from I on, and moves I past them.
    #[inline(always)]
    pub(crate) fn store_registers(&mut self, x: u8) -> Step
        requires { x < 16 }
        ensures { Performs (StoreRegisters x) (state self.old) (state self.new) result }
    {
        let registers = self.registers;
        self.counter = self.next();
        store(
            &mut self.memory,
            self.address,
            &registers[..usize::from(x) + 1],
        );
        self.address = (self.address + u16::from(x) + 1) % ADDRESSES;
        Step::Went
    }

    /// FX65: loads V0 to VX from I on, and moves I past them.
    #[inline(always)]
    pub(crate) fn load_registers(&mut self, x: u8) -> Step
        requires { x < 16 }
        ensures { Performs (LoadRegisters x) (state self.old) (state self.new) result }
    {
        let mut registers = self.registers;
        load(
            &self.memory,
            self.address,
            &mut registers[..usize::from(x) + 1],
        );
        self.counter = self.next();
        self.registers = registers;
        self.address = (self.address + u16::from(x) + 1) % ADDRESSES;
        Step::Went
    }
}

/// Stores bytes from an address on; address 0 follows the last address.
#[inline(always)]
fn store(memory: &mut [u8; MEMORY_SIZE], from: u16, bytes: &[u8])
    requires from { from < MEMORY_SIZE }
    requires few { length bytes.now ≤ 16 }
    ensures { slice_index memory.new ≡ stored bytes.now from (slice_index memory.old) }
{
    for (k, byte) in bytes.iter().enumerate() {
        memory[(usize::from(from) + k) % MEMORY_SIZE] = *byte;
    }
}

/// Loads bytes from an address on; address 0 follows the last address.
#[inline(always)]
pub(crate) fn load(memory: &[u8; MEMORY_SIZE], from: u16, bytes: &mut [u8])
    requires from { from < MEMORY_SIZE }
    requires few { length bytes.old ≤ 16 }
    ensures { bytes.new ≡ map (λ k. slice_index memory.now ((from + k) % 0x1000))
        (range_with_len 0 (length bytes.old)) }
{
    for k in 0..bytes.len() {
        bytes[k] = memory[(usize::from(from) + k) % MEMORY_SIZE];
    }
}
