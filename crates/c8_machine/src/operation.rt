//! Decodes codes of two bytes.
ghost use Rattle.std.specs.Prelude.{◌≡◌, ◌/◌, ◌%◌, MatchOption};
ghost use Rattle.c8_machine.specs.Instructions.{IsInRange};
ghost use Rattle.c8_machine.specs.checked.Decoding.{meaning, instruction_of, system_instruction, arithmetic_instruction, key_instruction, register_instruction};

/// What a code of two bytes means. X and Y are registers, 0 to 15.
#[derive(Clone, Copy)]
pub enum Operation {
    /// 00E0: turns every point off.
    Clear,
    /// 00EE: returns from a call.
    Return,
    /// 1MMM: jumps to an address.
    Jump { to: u16 },
    /// 2MMM: calls the code at an address.
    Call { to: u16 },
    /// 3XKK: skips if VX is the value.
    SkipIfValue { x: u8, value: u8 },
    /// 4XKK: skips if VX is not the value.
    SkipUnlessValue { x: u8, value: u8 },
    /// 5XY0: skips if VX and VY are equal.
    SkipIfSame { x: u8, y: u8 },
    /// 6XKK: sets VX to the value.
    SetValue { x: u8, value: u8 },
    /// 7XKK: adds the value to VX, without a flag.
    AddValue { x: u8, value: u8 },
    /// 8XY0: sets VX to VY.
    Set { x: u8, y: u8 },
    /// 8XY1: sets VX to the bitwise or of VX and VY, then VF to 0.
    Or { x: u8, y: u8 },
    /// 8XY2: sets VX to the bitwise and of VX and VY, then VF to 0.
    And { x: u8, y: u8 },
    /// 8XY3: sets VX to the bitwise exclusive or of VX and VY, then VF to 0.
    ExclusiveOr { x: u8, y: u8 },
    /// 8XY4: adds VY to VX; the flag is the carry.
    Add { x: u8, y: u8 },
    /// 8XY5: subtracts VY from VX; the flag is 1 if nothing was borrowed.
    Subtract { x: u8, y: u8 },
    /// 8XY6: sets VX to VY shifted right; the flag is the bit shifted out.
    ShiftRight { x: u8, y: u8 },
    /// 8XY7: sets VX to VY minus VX; the flag is 1 if nothing was borrowed.
    SubtractFrom { x: u8, y: u8 },
    /// 8XYE: sets VX to VY shifted left; the flag is the bit shifted out.
    ShiftLeft { x: u8, y: u8 },
    /// 9XY0: skips if VX and VY differ.
    SkipUnlessSame { x: u8, y: u8 },
    /// AMMM: sets I to an address.
    SetAddress { to: u16 },
    /// BMMM: jumps to an address plus V0.
    JumpFrom { to: u16 },
    /// CXKK: sets VX to the bitwise and of a random byte and the value.
    Random { x: u8, value: u8 },
    /// DXYN: draws `rows` bytes from I on.
    Draw { x: u8, y: u8, rows: u8 },
    /// EX9E: skips if the key that VX names is down.
    SkipIfDown { x: u8 },
    /// EXA1: skips if the key that VX names is up.
    SkipIfUp { x: u8 },
    /// FX07: sets VX to the timer.
    ReadTimer { x: u8 },
    /// FX0A: waits until a key is released; VX gets the key.
    AwaitKey { x: u8 },
    /// FX15: sets the timer to VX.
    SetTimer { x: u8 },
    /// FX18: sets the tone to VX.
    SetTone { x: u8 },
    /// FX1E: adds VX to I.
    AddAddress { x: u8 },
    /// FX29: sets I to the address of the pattern of VX's low digit.
    PointAtDigit { x: u8 },
    /// FX33: stores the three decimal digits of VX.
    StoreDigits { x: u8 },
    /// FX55: stores V0 to VX, and moves I past them.
    StoreRegisters { x: u8 },
    /// FX65: loads V0 to VX, and moves I past them.
    LoadRegisters { x: u8 },
    /// Any other code.
    Unknown,
}

/// Returns the instruction with this code.
#[inline(always)]
#[tactic(auto, unfolding(crate::specs::checked::Decoding::instruction_by))]
pub fn decode(code: u16) -> Operation
    ensures value { meaning result ≡ instruction_of code }
    ensures parts { MatchOption (meaning result) (Unit {0}) IsInRange }
{
    let x = (code / 0x100 % 0x10) as u8;
    let y = (code / 0x10 % 0x10) as u8;
    let last = (code % 0x10) as u8;
    let value = (code % 0x100) as u8;
    let to = code % 0x1000;
    match code / 0x1000 {
        0x0 => decode_system(code),
        0x1 => Operation::Jump { to },
        0x2 => Operation::Call { to },
        0x3 => Operation::SkipIfValue { x, value },
        0x4 => Operation::SkipUnlessValue { x, value },
        0x5 if last == 0 => Operation::SkipIfSame { x, y },
        0x6 => Operation::SetValue { x, value },
        0x7 => Operation::AddValue { x, value },
        0x8 => decode_arithmetic(code),
        0x9 if last == 0 => Operation::SkipUnlessSame { x, y },
        0xa => Operation::SetAddress { to },
        0xb => Operation::JumpFrom { to },
        0xc => Operation::Random { x, value },
        0xd => Operation::Draw { x, y, rows: last },
        0xe => decode_key(code),
        0xf => decode_register(code),
        _ => Operation::Unknown,
    }
}

#[inline(always)]
#[tactic(auto, unfolding(crate::specs::checked::Decoding::system_instruction))]
fn decode_system(code: u16) -> Operation
    ensures value { meaning result ≡ system_instruction code }
    ensures parts { MatchOption (meaning result) (Unit {0}) IsInRange }
{
    match code {
        0x00e0 => Operation::Clear,
        0x00ee => Operation::Return,
        _ => Operation::Unknown,
    }
}

#[inline(always)]
#[tactic(auto, unfolding(crate::specs::checked::Decoding::arithmetic_instruction))]
fn decode_arithmetic(code: u16) -> Operation
    ensures value { meaning result
        ≡ arithmetic_instruction (code / 0x100 % 0x10) (code / 0x10 % 0x10) (code % 0x10) }
    ensures parts { MatchOption (meaning result) (Unit {0}) IsInRange }
{
    let x = (code / 0x100 % 0x10) as u8;
    let y = (code / 0x10 % 0x10) as u8;
    match code % 0x10 {
        0x0 => Operation::Set { x, y },
        0x1 => Operation::Or { x, y },
        0x2 => Operation::And { x, y },
        0x3 => Operation::ExclusiveOr { x, y },
        0x4 => Operation::Add { x, y },
        0x5 => Operation::Subtract { x, y },
        0x6 => Operation::ShiftRight { x, y },
        0x7 => Operation::SubtractFrom { x, y },
        0xe => Operation::ShiftLeft { x, y },
        _ => Operation::Unknown,
    }
}

#[inline(always)]
#[tactic(auto, unfolding(crate::specs::checked::Decoding::key_instruction))]
fn decode_key(code: u16) -> Operation
    ensures value { meaning result
        ≡ key_instruction (code / 0x100 % 0x10) (code % 0x100) }
    ensures parts { MatchOption (meaning result) (Unit {0}) IsInRange }
{
    let x = (code / 0x100 % 0x10) as u8;
    match code % 0x100 {
        0x9e => Operation::SkipIfDown { x },
        0xa1 => Operation::SkipIfUp { x },
        _ => Operation::Unknown,
    }
}

#[inline(always)]
#[tactic(auto, unfolding(crate::specs::checked::Decoding::register_instruction))]
fn decode_register(code: u16) -> Operation
    ensures value { meaning result
        ≡ register_instruction (code / 0x100 % 0x10) (code % 0x100) }
    ensures parts { MatchOption (meaning result) (Unit {0}) IsInRange }
{
    let x = (code / 0x100 % 0x10) as u8;
    match code % 0x100 {
        0x07 => Operation::ReadTimer { x },
        0x0a => Operation::AwaitKey { x },
        0x15 => Operation::SetTimer { x },
        0x18 => Operation::SetTone { x },
        0x1e => Operation::AddAddress { x },
        0x29 => Operation::PointAtDigit { x },
        0x33 => Operation::StoreDigits { x },
        0x55 => Operation::StoreRegisters { x },
        0x65 => Operation::LoadRegisters { x },
        _ => Operation::Unknown,
    }
}
