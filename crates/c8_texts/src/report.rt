//! The machine report, for people and for other programs.

ghost use Rattle.std.specs.Prelude.{◌≡◌, ◌<◌, OnOk};
ghost use Rattle.std.specs.Io.KnownBytes.{Appends};
ghost use Rattle.c8_screen.specs.Points.{points_of};
ghost use Rattle.c8_texts.specs.Report.{Grows, Reports, row_text, screen_text};

use crate::lines::Played;
use c8_machine::Machine;
use c8_screen::{HEIGHT, Screen, WIDTH};
use std::io;
use std::io::Write;

/// Writes the report of what was played, with lower-case digits: the number of frames; the counter and I; the registers;
/// the timers and the draws; the stack, oldest first; whether the machine runs, waits or has stopped; and the 32 rows of
/// the screen. The error is the writer's.
pub fn write_report<W: Write>(out: &mut W, played: &Played) -> io::Result<()>
    ensures { OnOk result (Reports (W.contents out.old) (W.contents out.new) played.now) }
{
    let frames = played.frames;
    writeln!(out, "frames {frames}")?;
    write_parts(out, &played.machine)?;
    write_screen(out, played.machine.screen())
}

/// Writes the lines between the number of frames and the screen.
fn write_parts<W: Write>(out: &mut W, machine: &Machine) -> io::Result<()>
    ensures { OnOk result (Grows (W.contents out.old) (W.contents out.new)) }
{
    let (counter, address) = (machine.counter(), machine.address());
    writeln!(out, "pc {counter:04x} i {address:04x}")?;
    write_registers(out, machine.registers())?;
    let (timer, tone, draws) = (machine.timer(), machine.tone(), machine.draws());
    writeln!(out, "timer {timer:02x} tone {tone:02x} draws {draws}")?;
    write_stack(out, machine.stack())?;
    write_condition(out, machine)
}

fn write_registers<W: Write>(out: &mut W, registers: &[u8; 16]) -> io::Result<()>
    ensures { OnOk result (Grows (W.contents out.old) (W.contents out.new)) }
{
    write!(out, "v")?;
    for value in registers {
        write!(out, " {value:02x}")?;
    }
    writeln!(out)
}

fn write_stack<W: Write>(out: &mut W, places: &[u16]) -> io::Result<()>
    ensures { OnOk result (Grows (W.contents out.old) (W.contents out.new)) }
{
    let depth = places.len();
    write!(out, "stack {depth}")?;
    for place in places {
        write!(out, " {place:04x}")?;
    }
    writeln!(out)
}

fn write_condition<W: Write>(out: &mut W, machine: &Machine) -> io::Result<()>
    ensures { OnOk result (Grows (W.contents out.old) (W.contents out.new)) }
{
    match (machine.stopped(), machine.waits()) {
        (Some(stop), _) => {
            let number = stop.number();
            writeln!(out, "state stop {number}")
        }
        (None, Some(register)) => writeln!(out, "state waits {register:x}"),
        (None, None) => writeln!(out, "state runs"),
    }
}

fn write_screen<W: Write>(out: &mut W, screen: &Screen) -> io::Result<()>
    ensures { OnOk result (Appends (W.contents out.old) (W.contents out.new)
        (screen_text (points_of screen.now))) }
{
    for y in 0..HEIGHT {
        out.write_all(&row_text(screen, y))?;
    }
    Ok(())
}

/// Returns the 64 points of row `y`, column 0 first, and a line feed.
fn row_text(screen: &Screen, y: u8) -> [u8; 65]
    requires { y < 32 }
    ensures { result ≡ row_text (points_of screen.now) y }
{
    let mut text = [b'\n'; 65];
    for x in 0..WIDTH {
        text[usize::from(x)] = if screen.lit(x, y) { b'#' } else { b'.' };
    }
    text
}
