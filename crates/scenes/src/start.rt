// What an example and a scene start with: registers, and the bytes in memory.
ghost use Rattle.std.specs.Prelude.{◌≤◌};

use super::line::Line;
use machine::{Machine, Wait};
use scenery::{CODE, word_at};

pub fn machine(line: &Line, at: usize, pc: u16) -> Machine
    requires { at ≤ 6 }
{
    let regs = scenery::registers_at(line, at, pc);
    Machine::fresh().with_registers(regs, Wait::Running)
}

// Six bytes of code, a place, and four bytes that are put there, from a place of the line on.
pub fn fill(mem: &mut [u8], line: &Line, at: usize)
    requires { at ≤ 46 }
{
    scenery::fill(mem, CODE, line, at, 6);
    scenery::fill(mem, word_at(line, at + 13), line, at + 18, 4);
}
