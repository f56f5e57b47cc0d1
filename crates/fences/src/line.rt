// A scene's line: hexadecimal numbers at fixed places.
ghost use Rattle.std.specs.Prelude.{◌+◌, ◌≤◌};

use journal::Twin;
use machine::{Machine, Range, Settings};
use scenery::word_at;

pub const LINE: usize = 252;

pub type Line = [u8; LINE];

// Where the operations stand, and the first of the two profiles.
pub const OPERATIONS: usize = 96;

const PROFILES: usize = 108;

// A profile has 72 bytes: eight digits and a space for each range.
fn range_at(line: &Line, at: usize) -> Range
    requires { at + 8 ≤ 252 }
{
    Range {
        first: word_at(line, at),
        last: word_at(line, at + 4),
    }
}

fn profile_at(line: &Line, at: usize) -> [Range; 8]
    requires { at + 72 ≤ 252 }
{
    [
        range_at(line, at),
        range_at(line, at + 9),
        range_at(line, at + 18),
        range_at(line, at + 27),
        range_at(line, at + 36),
        range_at(line, at + 45),
        range_at(line, at + 54),
        range_at(line, at + 63),
    ]
}

// `second` is a value of the scene, which of its two profiles holds: it picks no step.
fn profile(line: &Line, second: bool) -> [Range; 8] {
    if second {
        return profile_at(line, PROFILES + 72);
    }
    profile_at(line, PROFILES)
}

// With the first profile, or the second.
pub fn settings(line: &Line, second: bool) -> Settings {
    let flags = scenery::flags_of(line[46]);
    Settings::fenced(word_at(line, 41), flags, profile(line, second))
}

pub fn twin(line: &Line) -> Twin {
    let regs = scenery::registers_at(line, 4, word_at(line, 36));
    let machine = Machine::fresh()
        .with_registers(regs, scenery::wait_of(line[48]))
        .marked(line[50] == b'1');
    Twin {
        machine,
        records: 0,
        bytes: 0,
    }
}

// Whether the calls are recorded.
pub fn is_recorded(line: &Line) -> bool {
    line[105] == b'J'
}

// Whether the sums of memory and journal are printed.
pub fn has_sums(line: &Line) -> bool {
    line[106] == b'D'
}
