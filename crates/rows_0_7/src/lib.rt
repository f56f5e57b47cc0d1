// Rows 0 to 7 of the plain page of the opcode table: the sixteen places of each high digit.
// Each row is written out, though some part in mode or accumulator alone: it is the manual's table, and no row is
// built at run time (docs/PERFORMANCE.md).
#![tactic(auto)]

ghost use Rattle.std.specs.Prelude.{◌≡◌};
ghost use Rattle.opcodes.specs.Rows.{row_of};
ghost use Rattle.opcodes.specs.declared.Page.TheVariants.{Plain};

use opcodes::{
    Acc, Cond, Entry, MemoryOp, Mode, RegisterOp, Software, Unary, branch, memory, on_acc,
    on_memory, registers,
};
use registers::{Index, Stack};

// Memory, direct.
pub fn row_0() -> [Option<Entry>; 16]
    ensures { result ≡ row_of Plain 0x0 }
{
    [
        on_memory(Unary::Neg, Mode::Direct, 2, 6),
        None,
        None,
        on_memory(Unary::Com, Mode::Direct, 2, 6),
        on_memory(Unary::Lsr, Mode::Direct, 2, 6),
        None,
        on_memory(Unary::Ror, Mode::Direct, 2, 6),
        on_memory(Unary::Asr, Mode::Direct, 2, 6),
        on_memory(Unary::Asl, Mode::Direct, 2, 6),
        on_memory(Unary::Rol, Mode::Direct, 2, 6),
        on_memory(Unary::Dec, Mode::Direct, 2, 6),
        None,
        on_memory(Unary::Inc, Mode::Direct, 2, 6),
        registers(RegisterOp::TestMemory, Mode::Direct, 2, 6),
        registers(RegisterOp::Jmp, Mode::Direct, 2, 3),
        on_memory(Unary::Clr, Mode::Direct, 2, 6),
    ]
}

// No operand, condition codes, exchanges, and the two long branches of this page.
pub fn row_1() -> [Option<Entry>; 16]
    ensures { result ≡ row_of Plain 0x1 }
{
    [
        None,
        None,
        registers(RegisterOp::Nop, Mode::Inherent, 1, 2),
        memory(MemoryOp::Sync, Mode::Inherent, 1, 4),
        None,
        None,
        branch(Cond::Ra, Mode::Relative16, 3, 5),
        memory(MemoryOp::Bsr, Mode::Relative16, 3, 9),
        None,
        registers(RegisterOp::Daa, Mode::Inherent, 1, 2),
        registers(RegisterOp::Orcc, Mode::Immediate8, 2, 3),
        None,
        registers(RegisterOp::Andcc, Mode::Immediate8, 2, 3),
        registers(RegisterOp::Sex, Mode::Inherent, 1, 2),
        registers(RegisterOp::Exg, Mode::Immediate8, 2, 8),
        registers(RegisterOp::Tfr, Mode::Immediate8, 2, 6),
    ]
}

// Short branches.
pub fn row_2() -> [Option<Entry>; 16]
    ensures { result ≡ row_of Plain 0x2 }
{
    [
        branch(Cond::Ra, Mode::Relative8, 2, 3),
        branch(Cond::Rn, Mode::Relative8, 2, 3),
        branch(Cond::Hi, Mode::Relative8, 2, 3),
        branch(Cond::Ls, Mode::Relative8, 2, 3),
        branch(Cond::Cc, Mode::Relative8, 2, 3),
        branch(Cond::Cs, Mode::Relative8, 2, 3),
        branch(Cond::Ne, Mode::Relative8, 2, 3),
        branch(Cond::Eq, Mode::Relative8, 2, 3),
        branch(Cond::Vc, Mode::Relative8, 2, 3),
        branch(Cond::Vs, Mode::Relative8, 2, 3),
        branch(Cond::Pl, Mode::Relative8, 2, 3),
        branch(Cond::Mi, Mode::Relative8, 2, 3),
        branch(Cond::Ge, Mode::Relative8, 2, 3),
        branch(Cond::Lt, Mode::Relative8, 2, 3),
        branch(Cond::Gt, Mode::Relative8, 2, 3),
        branch(Cond::Le, Mode::Relative8, 2, 3),
    ]
}

// Addresses, the stacks, waiting, and what has no operand.
pub fn row_3() -> [Option<Entry>; 16]
    ensures { result ≡ row_of Plain 0x3 }
{
    [
        registers(RegisterOp::Lea(Index::X), Mode::Indexed, 2, 4),
        registers(RegisterOp::Lea(Index::Y), Mode::Indexed, 2, 4),
        registers(RegisterOp::Lea(Index::S), Mode::Indexed, 2, 4),
        registers(RegisterOp::Lea(Index::U), Mode::Indexed, 2, 4),
        memory(MemoryOp::Push(Stack::S), Mode::Immediate8, 2, 5),
        memory(MemoryOp::Pull(Stack::S), Mode::Immediate8, 2, 5),
        memory(MemoryOp::Push(Stack::U), Mode::Immediate8, 2, 5),
        memory(MemoryOp::Pull(Stack::U), Mode::Immediate8, 2, 5),
        None,
        memory(MemoryOp::Rts, Mode::Inherent, 1, 5),
        registers(RegisterOp::Abx, Mode::Inherent, 1, 3),
        memory(MemoryOp::Rti, Mode::Inherent, 1, 6),
        memory(MemoryOp::Cwai, Mode::Immediate8, 2, 20),
        registers(RegisterOp::Mul, Mode::Inherent, 1, 11),
        None,
        memory(MemoryOp::Swi(Software::Swi), Mode::Inherent, 1, 19),
    ]
}

// Accumulator A.
pub fn row_4() -> [Option<Entry>; 16]
    ensures { result ≡ row_of Plain 0x4 }
{
    [
        on_acc(Unary::Neg, Acc::A, 1, 2),
        None,
        None,
        on_acc(Unary::Com, Acc::A, 1, 2),
        on_acc(Unary::Lsr, Acc::A, 1, 2),
        None,
        on_acc(Unary::Ror, Acc::A, 1, 2),
        on_acc(Unary::Asr, Acc::A, 1, 2),
        on_acc(Unary::Asl, Acc::A, 1, 2),
        on_acc(Unary::Rol, Acc::A, 1, 2),
        on_acc(Unary::Dec, Acc::A, 1, 2),
        None,
        on_acc(Unary::Inc, Acc::A, 1, 2),
        registers(RegisterOp::TestAcc(Acc::A), Mode::Inherent, 1, 2),
        None,
        on_acc(Unary::Clr, Acc::A, 1, 2),
    ]
}

// Accumulator B.
pub fn row_5() -> [Option<Entry>; 16]
    ensures { result ≡ row_of Plain 0x5 }
{
    [
        on_acc(Unary::Neg, Acc::B, 1, 2),
        None,
        None,
        on_acc(Unary::Com, Acc::B, 1, 2),
        on_acc(Unary::Lsr, Acc::B, 1, 2),
        None,
        on_acc(Unary::Ror, Acc::B, 1, 2),
        on_acc(Unary::Asr, Acc::B, 1, 2),
        on_acc(Unary::Asl, Acc::B, 1, 2),
        on_acc(Unary::Rol, Acc::B, 1, 2),
        on_acc(Unary::Dec, Acc::B, 1, 2),
        None,
        on_acc(Unary::Inc, Acc::B, 1, 2),
        registers(RegisterOp::TestAcc(Acc::B), Mode::Inherent, 1, 2),
        None,
        on_acc(Unary::Clr, Acc::B, 1, 2),
    ]
}

// Memory, indexed.
pub fn row_6() -> [Option<Entry>; 16]
    ensures { result ≡ row_of Plain 0x6 }
{
    [
        on_memory(Unary::Neg, Mode::Indexed, 2, 6),
        None,
        None,
        on_memory(Unary::Com, Mode::Indexed, 2, 6),
        on_memory(Unary::Lsr, Mode::Indexed, 2, 6),
        None,
        on_memory(Unary::Ror, Mode::Indexed, 2, 6),
        on_memory(Unary::Asr, Mode::Indexed, 2, 6),
        on_memory(Unary::Asl, Mode::Indexed, 2, 6),
        on_memory(Unary::Rol, Mode::Indexed, 2, 6),
        on_memory(Unary::Dec, Mode::Indexed, 2, 6),
        None,
        on_memory(Unary::Inc, Mode::Indexed, 2, 6),
        registers(RegisterOp::TestMemory, Mode::Indexed, 2, 6),
        registers(RegisterOp::Jmp, Mode::Indexed, 2, 3),
        on_memory(Unary::Clr, Mode::Indexed, 2, 6),
    ]
}

// Memory, extended.
pub fn row_7() -> [Option<Entry>; 16]
    ensures { result ≡ row_of Plain 0x7 }
{
    [
        on_memory(Unary::Neg, Mode::Extended, 3, 7),
        None,
        None,
        on_memory(Unary::Com, Mode::Extended, 3, 7),
        on_memory(Unary::Lsr, Mode::Extended, 3, 7),
        None,
        on_memory(Unary::Ror, Mode::Extended, 3, 7),
        on_memory(Unary::Asr, Mode::Extended, 3, 7),
        on_memory(Unary::Asl, Mode::Extended, 3, 7),
        on_memory(Unary::Rol, Mode::Extended, 3, 7),
        on_memory(Unary::Dec, Mode::Extended, 3, 7),
        None,
        on_memory(Unary::Inc, Mode::Extended, 3, 7),
        registers(RegisterOp::TestMemory, Mode::Extended, 3, 7),
        registers(RegisterOp::Jmp, Mode::Extended, 3, 4),
        on_memory(Unary::Clr, Mode::Extended, 3, 7),
    ]
}
