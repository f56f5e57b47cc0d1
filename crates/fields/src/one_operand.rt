// Rows 0 and 4 to 7: one operand, which is read, changed and put back.
ghost use Rattle.std.specs.Prelude.{◌≡◌};
ghost use Rattle.fields.specs.OneOperand.{one_operand, in_accumulator, in_memory};

use super::entries::entry_at;
use opcodes::{Acc, Entry, MemoryOp, Mode, Op, Page, RegisterOp, Unary};

// What a column of these rows stands for. TST looks at its operand, and JMP goes to its address.
#[derive(Clone, Copy)]
pub enum OneOperand {
    Change(Unary),
    Test,
    Jump,
}

fn operation(column: u8) -> Option<OneOperand>
    ensures { result ≡ one_operand column }
{
    match column {
        0x0 => Some(OneOperand::Change(Unary::Neg)),
        0x3 => Some(OneOperand::Change(Unary::Com)),
        0x4 => Some(OneOperand::Change(Unary::Lsr)),
        0x6 => Some(OneOperand::Change(Unary::Ror)),
        0x7 => Some(OneOperand::Change(Unary::Asr)),
        0x8 => Some(OneOperand::Change(Unary::Asl)),
        0x9 => Some(OneOperand::Change(Unary::Rol)),
        0xA => Some(OneOperand::Change(Unary::Dec)),
        0xC => Some(OneOperand::Change(Unary::Inc)),
        0xD => Some(OneOperand::Test),
        0xE => Some(OneOperand::Jump),
        0xF => Some(OneOperand::Change(Unary::Clr)),
        _ => None,
    }
}

// Rows 4 and 5: the operand is an accumulator, so there is nowhere to jump to.
pub fn in_accumulator(acc: Acc, column: u8) -> Option<Entry>
    ensures { result ≡ in_accumulator acc column }
{
    match operation(column)? {
        OneOperand::Change(unary) => {
            let op = Op::Registers(RegisterOp::OnAcc(unary, acc));
            entry_at(Page::Plain, op, Mode::Inherent, 2)
        }
        OneOperand::Test => {
            let op = Op::Registers(RegisterOp::TestAcc(acc));
            entry_at(Page::Plain, op, Mode::Inherent, 2)
        }
        OneOperand::Jump => None,
    }
}

// Rows 0, 6 and 7: the operand is the byte at the effective address.
pub fn in_memory(mode: Mode, column: u8) -> Option<Entry>
    ensures { result ≡ in_memory mode column }
{
    match operation(column)? {
        OneOperand::Change(unary) => {
            let op = Op::Memory(MemoryOp::OnMemory(unary));
            entry_at(Page::Plain, op, mode, 4)
        }
        OneOperand::Test => {
            let op = Op::Registers(RegisterOp::TestMemory);
            entry_at(Page::Plain, op, mode, 4)
        }
        OneOperand::Jump => {
            let op = Op::Registers(RegisterOp::Jmp);
            entry_at(Page::Plain, op, mode, 1)
        }
    }
}
