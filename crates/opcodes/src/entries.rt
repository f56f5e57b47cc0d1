// The entries in one line each, with mode, size and cycles as the manual has them: a helper for each kind of operation. One helper for all
// would say each constructor in full, as `entry(Op::Registers(RegisterOp::Load16(Word::Y)), ..)`, and no line would be plainer.
ghost use Rattle.std.specs.Prelude.{◌≡◌};
ghost use Rattle.opcodes.specs.Manual.{instruction};

use super::{Acc, Alu, Cond, Entry, MemoryOp, Mode, Op, RegisterOp, Unary};
use registers::Word;

fn entry(op: Op, mode: Mode, size: u8, cycles: u8) -> Option<Entry>
    ensures { result ≡ instruction op mode size cycles }
{
    Some(Entry {
        op,
        mode,
        size,
        cycles,
    })
}

pub fn registers(op: RegisterOp, mode: Mode, size: u8, cycles: u8) -> Option<Entry>
    ensures { result ≡ instruction (Op.Registers op) mode size cycles }
{
    entry(Op::Registers(op), mode, size, cycles)
}

pub fn memory(op: MemoryOp, mode: Mode, size: u8, cycles: u8) -> Option<Entry>
    ensures { result ≡ instruction (Op.Memory op) mode size cycles }
{
    entry(Op::Memory(op), mode, size, cycles)
}

pub fn alu8(alu: Alu, acc: Acc, mode: Mode, size: u8, cycles: u8) -> Option<Entry>
    ensures { result ≡ instruction (Op.Registers (RegisterOp.Alu alu acc)) mode size cycles }
{
    registers(RegisterOp::Alu(alu, acc), mode, size, cycles)
}

pub fn on_acc(unary: Unary, acc: Acc, size: u8, cycles: u8) -> Option<Entry>
    ensures { result ≡ instruction (Op.Registers (RegisterOp.OnAcc unary acc)) Mode.Inherent size cycles }
{
    registers(RegisterOp::OnAcc(unary, acc), Mode::Inherent, size, cycles)
}

pub fn on_memory(unary: Unary, mode: Mode, size: u8, cycles: u8) -> Option<Entry>
    ensures { result ≡ instruction (Op.Memory (MemoryOp.OnMemory unary)) mode size cycles }
{
    memory(MemoryOp::OnMemory(unary), mode, size, cycles)
}

pub fn load16(word: Word, mode: Mode, size: u8, cycles: u8) -> Option<Entry>
    ensures { result ≡ instruction (Op.Registers (RegisterOp.Load16 word)) mode size cycles }
{
    registers(RegisterOp::Load16(word), mode, size, cycles)
}

pub fn store16(word: Word, mode: Mode, size: u8, cycles: u8) -> Option<Entry>
    ensures { result ≡ instruction (Op.Memory (MemoryOp.Store16 word)) mode size cycles }
{
    memory(MemoryOp::Store16(word), mode, size, cycles)
}

pub fn compare16(word: Word, mode: Mode, size: u8, cycles: u8) -> Option<Entry>
    ensures { result ≡ instruction (Op.Registers (RegisterOp.Cmp16 word)) mode size cycles }
{
    registers(RegisterOp::Cmp16(word), mode, size, cycles)
}

pub fn branch(cond: Cond, mode: Mode, size: u8, cycles: u8) -> Option<Entry>
    ensures { result ≡ instruction (Op.Registers (RegisterOp.Branch cond)) mode size cycles }
{
    registers(RegisterOp::Branch(cond), mode, size, cycles)
}
