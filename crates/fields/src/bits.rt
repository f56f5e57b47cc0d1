// The fields of an opcode of rows 8 to F above its column: bit 6, and bits 5 and 4.
ghost use Rattle.std.specs.Prelude.{◌≡◌};
ghost use Rattle.registers.specs.ConditionCodes.{bit_at};
ghost use Rattle.fields.specs.Entries.{mode_of, unless_immediate};

use opcodes::{Entry, Mode};

// Bit 6 clear: accumulator A and the words that stand with it. Bit 6 set: accumulator B and its words.
pub fn is_second(code: u8) -> bool
    ensures { result ≡ bit_at 6 code }
{
    (code >> 6) % 2 == 1
}

// Bits 5 and 4 name the mode. An immediate operand is as wide as the operation.
pub fn mode_of(code: u8, immediate: Mode) -> Mode
    ensures { result ≡ mode_of code immediate }
{
    match (code >> 4) % 4 {
        0 => immediate,
        1 => Mode::Direct,
        2 => Mode::Indexed,
        _ => Mode::Extended,
    }
}

// Nothing can be stored in an immediate operand: with bits 5 and 4 clear a store's place is empty.
pub fn unless_immediate(code: u8, place: Option<Entry>) -> Option<Entry>
    ensures { result ≡ unless_immediate code place }
{
    if (code >> 4) % 4 == 0 { None } else { place }
}
