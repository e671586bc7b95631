//! The instructions that compute with registers and timers. They write the flag after the result.
ghost use Rattle.std.specs.Prelude.{◌≡◌, ℕ, ◌<◌, ◌++◌};
ghost use Rattle.sha2.specs.Sha256.{sha256};
ghost use Rattle.c8_machine.specs.Instructions.{AddValue, Set, Or, And, ExclusiveOr, Add, Subtract, ShiftRight, SubtractFrom, ShiftLeft, Random, SetTimer, SetTone};
ghost use Rattle.c8_machine.specs.State.{state};
ghost use Rattle.c8_machine.specs.Steps.{passed, with_register, with_flag, flag_if, random_byte, Does, Performs};

use crate::machine::{Machine, Step};
use c8_game::Game;
use sha2::{Digest, Sha256};

impl Machine {
    /// 6XKK, and FX07 with the timer: sets VX to the value.
    #[inline(always)]
    pub(crate) fn put(&mut self, x: u8, value: u8) -> Step
        requires { x < 16 }
        ensures step { result ≡ Step.Went }
        ensures state { state self.new ≡ with_register (passed (state self.old)) x value }
    {
        self.counter = self.next();
        self.registers[usize::from(x)] = value;
        Step::Went
    }

    /// 8XY1 to 8XYE: sets VX to the result, then VF to the flag.
    #[inline(always)]
    fn put_with_flag(&mut self, x: u8, value: u8, flag: u8) -> Step
        requires { x < 16 }
        ensures step { result ≡ Step.Went }
        ensures state { state self.new
            ≡ with_flag (with_register (passed (state self.old)) x value) flag }
    {
        self.counter = self.next();
        self.registers[usize::from(x)] = value;
        self.registers[0xf] = flag;
        Step::Went
    }

    /// 7XKK: adds the value to VX modulo 100 (hexadecimal), without a flag.
    #[inline(always)]
    pub(crate) fn add_value(&mut self, x: u8, value: u8) -> Step
        requires { x < 16 }
        ensures { Performs (AddValue x value) (state self.old) (state self.new) result }
    {
        self.put(x, self.register(x).wrapping_add(value))
    }

    /// 8XY0: sets VX to VY.
    #[inline(always)]
    pub(crate) fn set(&mut self, x: u8, y: u8) -> Step
        requires x { x < 16 }
        requires y { y < 16 }
        ensures { Performs (Set x y) (state self.old) (state self.new) result }
    {
        self.put(x, self.register(y))
    }

    /// 8XY1: sets VX to the bitwise or of VX and VY, then VF to 0.
    #[inline(always)]
    pub(crate) fn or(&mut self, x: u8, y: u8) -> Step
        requires x { x < 16 }
        requires y { y < 16 }
        ensures { Performs (Or x y) (state self.old) (state self.new) result }
    {
        self.put_with_flag(x, self.register(x) | self.register(y), 0)
    }

    /// 8XY2: sets VX to the bitwise and of VX and VY, then VF to 0.
    #[inline(always)]
    pub(crate) fn and(&mut self, x: u8, y: u8) -> Step
        requires x { x < 16 }
        requires y { y < 16 }
        ensures { Performs (And x y) (state self.old) (state self.new) result }
    {
        self.put_with_flag(x, self.register(x) & self.register(y), 0)
    }

    /// 8XY3: sets VX to the bitwise exclusive or of VX and VY, then VF to 0.
    #[inline(always)]
    pub(crate) fn exclusive_or(&mut self, x: u8, y: u8) -> Step
        requires x { x < 16 }
        requires y { y < 16 }
        ensures { Performs (ExclusiveOr x y) (state self.old) (state self.new) result }
    {
        self.put_with_flag(x, self.register(x) ^ self.register(y), 0)
    }

    /// 8XY4: adds VY to VX; the flag is 1 if the sum is above FF.
    #[inline(always)]
    pub(crate) fn add(&mut self, x: u8, y: u8) -> Step
        requires x { x < 16 }
        requires y { y < 16 }
        ensures { Performs (Add x y) (state self.old) (state self.new) result }
    {
        let sum = u16::from(self.register(x)) + u16::from(self.register(y));
        self.put_with_flag(x, (sum % 0x100) as u8, flag_if(sum > 0xff))
    }

    /// 8XY5: subtracts VY from VX; the flag is 1 if VX was at least VY.
    #[inline(always)]
    pub(crate) fn subtract(&mut self, x: u8, y: u8) -> Step
        requires x { x < 16 }
        requires y { y < 16 }
        ensures { Performs (Subtract x y) (state self.old) (state self.new) result }
    {
        let (from, less) = (self.register(x), self.register(y));
        self.put_with_flag(x, from.wrapping_sub(less), flag_if(from >= less))
    }

    /// 8XY7: sets VX to VY minus VX; the flag is 1 if VY was at least VX.
    #[inline(always)]
    pub(crate) fn subtract_from(&mut self, x: u8, y: u8) -> Step
        requires x { x < 16 }
        requires y { y < 16 }
        ensures { Performs (SubtractFrom x y) (state self.old) (state self.new) result }
    {
        let (from, less) = (self.register(y), self.register(x));
        self.put_with_flag(x, from.wrapping_sub(less), flag_if(from >= less))
    }

    /// 8XY6: sets VX to VY shifted right by one; the flag is the bit shifted out.
    #[inline(always)]
    pub(crate) fn shift_right(&mut self, x: u8, y: u8) -> Step
        requires x { x < 16 }
        requires y { y < 16 }
        ensures { Performs (ShiftRight x y) (state self.old) (state self.new) result }
    {
        let value = self.register(y);
        self.put_with_flag(x, value / 2, value % 2)
    }

    /// 8XYE: sets VX to VY shifted left by one; the flag is the bit shifted out.
    #[inline(always)]
    pub(crate) fn shift_left(&mut self, x: u8, y: u8) -> Step
        requires x { x < 16 }
        requires y { y < 16 }
        ensures { Performs (ShiftLeft x y) (state self.old) (state self.new) result }
    {
        let value = self.register(y);
        self.put_with_flag(x, value.wrapping_mul(2), value / 0x80)
    }

    /// CXKK: sets VX to the bitwise and of a random byte and the value, and counts one more draw.
    pub(crate) fn random(&mut self, game: &Game, x: u8, value: u8) -> Step
        requires { x < 16 }
        ensures { (keys : ℕ) → Does game.now keys (Random x value)
            (state self.old) (state self.new) result }
    {
        let byte = random_byte(game.seed(), self.draws);
        self.draws = self.draws.wrapping_add(1);
        self.put(x, byte & value)
    }

    /// FX15: sets the timer to VX.
    #[inline(always)]
    pub(crate) fn set_timer(&mut self, x: u8) -> Step
        requires { x < 16 }
        ensures { Performs (SetTimer x) (state self.old) (state self.new) result }
    {
        self.counter = self.next();
        self.timer = self.register(x);
        Step::Went
    }

    /// FX18: sets the tone to VX.
    #[inline(always)]
    pub(crate) fn set_tone(&mut self, x: u8) -> Step
        requires { x < 16 }
        ensures { Performs (SetTone x) (state self.old) (state self.new) result }
    {
        self.counter = self.next();
        self.tone = self.register(x);
        Step::Went
    }
}

/// Returns 1 if the test holds, else 0.
#[inline(always)]
pub(crate) fn flag_if(test: bool) -> u8
    ensures { result ≡ flag_if test }
{
    if test { 1 } else { 0 }
}

/// Returns random byte number `n` of a game with this seed: the first byte of SHA-256 (FIPS 180-4) over `seed` and `n`,
/// 8 bytes each, the most significant first.
#[tactic(auto, unfolding(crate::specs::Steps::random_byte))]
fn random_byte(seed: u64, n: u64) -> u8
    ensures { result ≡ random_byte seed n }
{
    let [first, ..] = digest_of_both(&seed.to_be_bytes(), &n.to_be_bytes());
    first
}

/// Hashes two pieces as one message.
fn digest_of_both(first: &[u8], second: &[u8]) -> [u8; 32]
    ensures { result ≡ sha256 (first.now ++ second.now) }
{
    let mut hasher = Sha256::new();
    hasher.update(first);
    hasher.update(second);
    hasher.finalize()
}
