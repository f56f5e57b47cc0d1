// An instruction of the map. Its size and its base cycles follow from the page, the mode and what the operation takes.
ghost use Rattle.std.specs.Prelude.{◌≡◌, ◌≤◌};
ghost use Rattle.fields.specs.Entries.{prefix_bytes, operand_bytes, reach_cycles, entry_at};

use opcodes::{Entry, Mode, Op, Page};

// The byte 10 or 11 that stands before the opcode. It takes one cycle.
fn prefix_bytes(page: Page) -> u8
    ensures value { result ≡ prefix_bytes page }
    ensures upper_bound { result ≤ 1 }
{
    match page {
        Page::Plain => 0,
        Page::Ten | Page::Eleven => 1,
    }
}

// The bytes that follow the opcode. Of an indexed operand it is the post-byte alone.
fn operand_bytes(mode: Mode) -> u8
    ensures value { result ≡ operand_bytes mode }
    ensures upper_bound { result ≤ 2 }
{
    match mode {
        Mode::Inherent => 0,
        Mode::Immediate8 | Mode::Direct | Mode::Indexed | Mode::Relative8 => 1,
        Mode::Immediate16 | Mode::Extended | Mode::Relative16 => 2,
    }
}

// The cycles to find an operand in memory. The others are at hand once the instruction is read.
fn reach_cycles(mode: Mode) -> u8
    ensures value { result ≡ reach_cycles mode }
    ensures upper_bound { result ≤ 3 }
{
    match mode {
        Mode::Direct | Mode::Indexed => 2,
        Mode::Extended => 3,
        Mode::Inherent
        | Mode::Immediate8
        | Mode::Immediate16
        | Mode::Relative8
        | Mode::Relative16 => 0,
    }
}

// `cycles` is what the operation takes itself.
// Its bound stands in three contracts: a type for it would be named at each line that gives a number.
pub(super) fn entry_at(page: Page, op: Op, mode: Mode, cycles: u8) -> Option<Entry>
    requires { cycles ≤ 20 }
    ensures { result ≡ entry_at page op mode cycles }
{
    let prefix = prefix_bytes(page);
    Some(Entry {
        op,
        mode,
        size: prefix + 1 + operand_bytes(mode),
        cycles: prefix + cycles + reach_cycles(mode),
    })
}
