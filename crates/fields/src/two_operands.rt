// Rows 8 to F of the plain page: an accumulator and a byte, or a word.
ghost use Rattle.std.specs.Prelude.{◌≡◌};
ghost use Rattle.fields.specs.TwoOperands.{two_operands, accumulator_of, with_byte, store_byte, two_operand_place};

use super::bits::{is_second, mode_of, unless_immediate};
use super::entries::entry_at;
use super::words;
use opcodes::{Acc, Alu, Entry, MemoryOp, Mode, Op, Page, RegisterOp};

// What a column stands for: an operation of the accumulator and a byte, its store, or an operation on a word.
#[derive(Clone, Copy)]
pub enum TwoOperands {
    Byte(Alu),
    Store,
    Word,
}

fn operation(column: u8) -> TwoOperands
    ensures { result ≡ two_operands column }
{
    match column {
        0x0 => TwoOperands::Byte(Alu::Sub),
        0x1 => TwoOperands::Byte(Alu::Cmp),
        0x2 => TwoOperands::Byte(Alu::Sbc),
        0x4 => TwoOperands::Byte(Alu::And),
        0x5 => TwoOperands::Byte(Alu::Bit),
        0x6 => TwoOperands::Byte(Alu::Ld),
        0x7 => TwoOperands::Store,
        0x8 => TwoOperands::Byte(Alu::Eor),
        0x9 => TwoOperands::Byte(Alu::Adc),
        0xA => TwoOperands::Byte(Alu::Or),
        0xB => TwoOperands::Byte(Alu::Add),
        _ => TwoOperands::Word,
    }
}

fn accumulator(code: u8) -> Acc
    ensures { result ≡ accumulator_of code }
{
    if is_second(code) { Acc::B } else { Acc::A }
}

fn with_byte(alu: Alu, code: u8) -> Option<Entry>
    ensures { result ≡ with_byte alu code }
{
    let op = Op::Registers(RegisterOp::Alu(alu, accumulator(code)));
    entry_at(Page::Plain, op, mode_of(code, Mode::Immediate8), 2)
}

fn store_byte(code: u8) -> Option<Entry>
    ensures { result ≡ store_byte code }
{
    let op = Op::Memory(MemoryOp::Store8(accumulator(code)));
    let mode = mode_of(code, Mode::Immediate8);
    unless_immediate(code, entry_at(Page::Plain, op, mode, 2))
}

pub fn place(code: u8) -> Option<Entry>
    ensures { result ≡ two_operand_place code }
{
    match operation(code % 16) {
        TwoOperands::Byte(alu) => with_byte(alu, code),
        TwoOperands::Store => store_byte(code),
        TwoOperands::Word => words::place(Page::Plain, code),
    }
}
