// What stands in the opcode table: operations, modes, entries, and the manual's rows. The table itself is crate `pages`.
#![tactic(auto)]

mod entries;
mod row;

pub use entries::{alu8, branch, compare16, load16, memory, on_acc, on_memory, registers, store16};
use registers::{Index, Stack, Word};
pub use row::at_digit;

// The manual's addressing modes. The mode says how wide an immediate operand or a branch's offset is.
#[derive(Clone, Copy)]
pub enum Mode {
    Inherent,
    Immediate8,
    Immediate16,
    Direct,
    Indexed,
    Extended,
    Relative8,
    Relative16,
}

#[derive(Clone, Copy)]
pub enum Acc {
    A,
    B,
}

// Operations of an accumulator and a byte.
#[derive(Clone, Copy)]
pub enum Alu {
    Add,
    Adc,
    Sub,
    Sbc,
    Cmp,
    And,
    Bit,
    Or,
    Eor,
    Ld,
}

// Operations that change one byte, of an accumulator or of memory.
#[derive(Clone, Copy)]
pub enum Unary {
    Neg,
    Com,
    Lsr,
    Ror,
    Asr,
    Asl,
    Rol,
    Dec,
    Inc,
    Clr,
}

// The conditions of the branches, in the order of their opcodes.
#[derive(Clone, Copy)]
pub enum Cond {
    Ra,
    Rn,
    Hi,
    Ls,
    Cc,
    Cs,
    Ne,
    Eq,
    Vc,
    Vs,
    Pl,
    Mi,
    Ge,
    Lt,
    Gt,
    Le,
}

#[derive(Clone, Copy)]
pub enum Software {
    Swi,
    Swi2,
    Swi3,
}

// Operations that change registers alone: they write no byte, use no stack and do not wait.
#[derive(Clone, Copy)]
pub enum RegisterOp {
    Alu(Alu, Acc),
    OnAcc(Unary, Acc),
    TestAcc(Acc),
    TestMemory,
    Addd,
    Subd,
    Load16(Word),
    Cmp16(Word),
    Lea(Index),
    Branch(Cond),
    Jmp,
    Nop,
    Daa,
    Sex,
    Mul,
    Abx,
    Andcc,
    Orcc,
    Exg,
    Tfr,
}

// Operations that may write memory, use a stack or wait.
#[derive(Clone, Copy)]
pub enum MemoryOp {
    OnMemory(Unary),
    Store8(Acc),
    Store16(Word),
    Bsr,
    Jsr,
    Rts,
    Rti,
    Swi(Software),
    Cwai,
    Sync,
    Push(Stack),
    Pull(Stack),
}

#[derive(Clone, Copy)]
pub enum Op {
    Registers(RegisterOp),
    Memory(MemoryOp),
}

// An operation, its addressing mode, its size in bytes (of an indexed one without the offset bytes) and its base cycles.
#[derive(Clone, Copy)]
pub struct Entry {
    pub op: Op,
    pub mode: Mode,
    pub size: u8,
    pub cycles: u8,
}

#[derive(Clone, Copy)]
pub enum Page {
    Plain,
    Ten,
    Eleven,
}
