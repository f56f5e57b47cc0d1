// A scene's line: hexadecimal numbers at fixed places.
ghost use Rattle.std.specs.Prelude.{◌+◌, ◌≤◌};

use machine::{Machine, Settings};
use scenery::word_at;

pub const LINE: usize = 190;

pub type Line = [u8; LINE];

// Five digits: an address, or none where the first is 1.
pub fn stop_at(line: &Line, at: usize) -> Option<u16>
    requires { at + 5 ≤ 190 }
{
    let address = word_at(line, at + 1);
    if line[at] == b'1' {
        None
    } else {
        Some(address)
    }
}

pub fn settings(line: &Line) -> Settings {
    Settings::new(word_at(line, 41), scenery::flags_of(line[46]))
}

pub fn machine(line: &Line) -> Machine {
    let regs = scenery::registers_at(line, 4, word_at(line, 36));
    Machine::fresh().with_registers(regs, scenery::wait_of(line[48]))
}
