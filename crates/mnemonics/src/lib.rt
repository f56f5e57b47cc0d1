// The mnemonics of the manual's instructions.
#![tactic(auto)]

mod letters;

ghost use Rattle.std.specs.Prelude.{◌≡◌};
ghost use Rattle.mnemonics.specs.Mnemonics.{mnemonic_of, register_mnemonic, memory_mnemonic};

use letters::{branch, with_acc, with_word};
use opcodes::{Acc, MemoryOp, Op, RegisterOp};
use registers::Word;

fn of_registers(op: RegisterOp, long: bool) -> &'static str
    ensures { result.now ≡ register_mnemonic op long }
{
    match op {
        RegisterOp::Alu(alu, acc) => letters::of_alu(alu, acc),
        RegisterOp::OnAcc(unary, acc) => letters::on_acc(unary, acc),
        RegisterOp::TestAcc(acc) => with_acc!("TST", acc),
        RegisterOp::TestMemory => "TST",
        RegisterOp::Addd => "ADDD",
        RegisterOp::Subd => "SUBD",
        RegisterOp::Load16(word) => with_word!("LD", word),
        RegisterOp::Cmp16(word) => with_word!("CMP", word),
        RegisterOp::Lea(index) => with_word!("LEA", index.word()),
        RegisterOp::Branch(cond) => letters::of_branch(cond, long),
        RegisterOp::Jmp => "JMP",
        RegisterOp::Nop => "NOP",
        RegisterOp::Daa => "DAA",
        RegisterOp::Sex => "SEX",
        RegisterOp::Mul => "MUL",
        RegisterOp::Abx => "ABX",
        RegisterOp::Andcc => "ANDCC",
        RegisterOp::Orcc => "ORCC",
        RegisterOp::Exg => "EXG",
        RegisterOp::Tfr => "TFR",
    }
}

fn of_memory(op: MemoryOp, long: bool) -> &'static str
    ensures { result.now ≡ memory_mnemonic op long }
{
    match op {
        MemoryOp::OnMemory(unary) => letters::on_memory(unary),
        MemoryOp::Store8(acc) => with_acc!("ST", acc),
        MemoryOp::Store16(word) => with_word!("ST", word),
        MemoryOp::Bsr => branch!("SR", long),
        MemoryOp::Jsr => "JSR",
        MemoryOp::Rts => "RTS",
        MemoryOp::Rti => "RTI",
        MemoryOp::Swi(software) => letters::of_software(software),
        MemoryOp::Cwai => "CWAI",
        MemoryOp::Sync => "SYNC",
        MemoryOp::Push(stack) => with_word!("PSH", stack.word()),
        MemoryOp::Pull(stack) => with_word!("PUL", stack.word()),
    }
}

// The mnemonic of an operation; `long` tells LBRA from BRA.
pub fn mnemonic(op: Op, long: bool) -> &'static str
    ensures { result.now ≡ mnemonic_of op long }
{
    match op {
        Op::Registers(o) => of_registers(o, long),
        Op::Memory(o) => of_memory(o, long),
    }
}
