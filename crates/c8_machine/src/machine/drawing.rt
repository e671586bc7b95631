//! The instructions that clear the screen and draw on it.
ghost use Rattle.std.specs.Prelude.{◌≡◌, ◌<◌};
ghost use Rattle.c8_screen.specs.Points.{exclusive_or, meets};
ghost use Rattle.c8_machine.specs.Instructions.{Clear, Draw};
ghost use Rattle.c8_machine.specs.State.{state};
ghost use Rattle.c8_machine.specs.Steps.{drawing, Performs};

use crate::machine::arithmetic::flag_if;
use crate::machine::memory::load;
use crate::machine::{Machine, Step};

impl Machine {
    /// 00E0: turns every point off.
    #[inline(always)]
    pub(crate) fn clear(&mut self) -> Step
        ensures { Performs Clear (state self.old) (state self.new) result }
    {
        self.counter = self.next();
        self.screen.clear();
        Step::Went
    }

    /// DXYN: draws `rows` bytes from I on at (VX, VY); the flag is 1 if a lit point was turned off.
    #[inline(always)]
    pub(crate) fn draw(&mut self, x: u8, y: u8, rows: u8) -> Step
        requires x { x < 16 }
        requires y { y < 16 }
        requires rows { rows < 16 }
        ensures { Performs (Draw x y rows) (state self.old) (state self.new) result }
    {
        let put_out = self.draw_bytes(self.register(x), self.register(y), rows);
        self.counter = self.next();
        self.registers[0xf] = flag_if(put_out);
        Step::Drew
    }

    /// Draws `rows` bytes from I on, and returns whether a lit point was turned off.
    #[inline(always)]
    fn draw_bytes(&mut self, x: u8, y: u8, rows: u8) -> bool
        requires { rows < 16 }
        ensures screen { let s = state self.old in
            state self.new ≡ record s { screen = exclusive_or s.screen (drawing s x y rows) } }
        ensures put_out { let s = state self.old in result ≡ meets s.screen (drawing s x y rows) }
    {
        let mut bytes = [0; 15];
        load(&self.memory, self.address, &mut bytes);
        self.screen.draw(x, y, &bytes[..usize::from(rows)])
    }
}
