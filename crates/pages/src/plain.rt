// The plain page of the opcode table.
ghost use Rattle.std.specs.Prelude.{◌≡◌};
ghost use Rattle.opcodes.specs.Manual.{entry_of};
ghost use Rattle.opcodes.specs.declared.Page.TheVariants.{Plain};

use opcodes::{Entry, at_digit};

// The place of a byte: in the row of its high digit, at its low one.
// The pages have a `place` each, which names their rows: no row is built at run time (docs/PERFORMANCE.md).
pub fn place(code: u8) -> Option<Entry>
    ensures { result ≡ entry_of Plain code }
{
    match code / 16 {
        0x0 => at_digit(rows_0_7::row_0(), code),
        0x1 => at_digit(rows_0_7::row_1(), code),
        0x2 => at_digit(rows_0_7::row_2(), code),
        0x3 => at_digit(rows_0_7::row_3(), code),
        0x4 => at_digit(rows_0_7::row_4(), code),
        0x5 => at_digit(rows_0_7::row_5(), code),
        0x6 => at_digit(rows_0_7::row_6(), code),
        0x7 => at_digit(rows_0_7::row_7(), code),
        0x8 => at_digit(rows_8_f::row_8(), code),
        0x9 => at_digit(rows_8_f::row_9(), code),
        0xA => at_digit(rows_8_f::row_a(), code),
        0xB => at_digit(rows_8_f::row_b(), code),
        0xC => at_digit(rows_8_f::row_c(), code),
        0xD => at_digit(rows_8_f::row_d(), code),
        0xE => at_digit(rows_8_f::row_e(), code),
        _ => at_digit(rows_8_f::row_f(), code),
    }
}
