// The opcode map read by its bits: operation, mode, size and base cycles of an opcode, without a table of opcodes.
//
// Bits 7 to 4 of an opcode are its row and bits 3 to 0 its column:
//   row 0        one operand in memory, direct          the column names the operation
//   row 1        by name                                SYNC, DAA, TFR and others
//   row 2        branches                               bits 3 to 1 name a pair of conditions, bit 0 one of the pair
//   row 3        LEA, PSH and PUL, and by name          bits 3 and 2 tell these groups apart, bits 1 and 0 the registers
//   rows 4, 5    one operand, accumulator A or B        the column names the operation, as in row 0
//   rows 6, 7    one operand in memory, indexed or extended
//   rows 8 to F  a register and an operand              bit 6 chooses the register, bits 5 and 4 the mode, the column the operation
// After a byte 10 or 11 stand the long branches (row 2), SWI2 and SWI3 (row 3), and operations on other words (rows 8 to F).
#![tactic(auto)]

mod bits;
mod branches;
mod entries;
mod named;
mod one_operand;
mod two_operands;
mod words;

ghost use Rattle.std.specs.Prelude.{◌≡◌};
ghost use Rattle.opcodes.specs.Manual.{entry_of};
ghost use Rattle.fields.specs.Fields.{plain_place, prefixed_place};

use opcodes::{Acc, Entry, Mode, Page};

// The plain page, row by row.
fn plain(code: u8) -> Option<Entry>
    ensures { result ≡ plain_place code }
{
    let column = code % 16;
    match code >> 4 {
        0x0 => one_operand::in_memory(Mode::Direct, column),
        0x1 => named::row_1(column),
        0x2 => branches::short(column),
        0x3 => named::row_3(column),
        0x4 => one_operand::in_accumulator(Acc::A, column),
        0x5 => one_operand::in_accumulator(Acc::B, column),
        0x6 => one_operand::in_memory(Mode::Indexed, column),
        0x7 => one_operand::in_memory(Mode::Extended, column),
        _ => two_operands::place(code),
    }
}

// Pages 10 and 11: three groups. Bit 7 is set in rows 8 to F.
fn prefixed(page: Page, code: u8) -> Option<Entry>
    ensures { result ≡ prefixed_place page code }
{
    if 0x80 <= code {
        return words::place(page, code);
    }
    match code >> 4 {
        0x2 => branches::long(page, code % 16),
        0x3 => named::software(page, code % 16),
        _ => None,
    }
}

// What a byte on a page stands for.
pub fn place(page: Page, code: u8) -> Option<Entry>
    ensures { result ≡ entry_of page code }
{
    match page {
        Page::Plain => plain(code),
        Page::Ten | Page::Eleven => prefixed(page, code),
    }
}
