// What a step costs in cycles: the base figure of the opcode table, and what the manual adds to it.
#![tactic(auto)]

ghost use Rattle.std.specs.Prelude.{◌≡◌, ◌+◌};
ghost use Rattle.cycles.specs.Cycles.{form_extra, operand_extra, branch_extra, registers_extra, return_extra, memory_extra};

use decode::{Form, Operand};
use opcodes::{Cond, MemoryOp, Mode, RegisterOp};
use registers::{CCBit, CCBits, Set};

// The manual's table of indexed modes, its two columns.
fn form_extra(form: Form, indirect: bool) -> u8
    ensures { result ≡ form_extra form indirect }
{
    match form {
        Form::NoOffset => if indirect { 3 } else { 0 },
        Form::Offset5 => 1,
        Form::Offset8 | Form::OffsetA | Form::OffsetB | Form::Program8 => if indirect {
            4
        } else {
            1
        },
        Form::Offset16 | Form::OffsetD => if indirect { 7 } else { 4 },
        Form::Increment1 | Form::Decrement1 => 2,
        Form::Increment2 => if indirect { 6 } else { 3 },
        Form::Decrement2 => if indirect { 6 } else { 3 },
        Form::Program16 => if indirect { 8 } else { 5 },
        Form::Address => 5,
    }
}

pub fn operand_extra(operand: Operand) -> u8
    ensures { result ≡ operand_extra operand }
{
    match operand {
        Operand::Indexed(indexed) => form_extra(indexed.form, decode::is_indirect(indexed.post)),
        _ => 0,
    }
}

// A long branch on a condition, where it is taken.
fn branch_extra(mode: Mode, cond: Cond, cc: CCBits) -> u8
    ensures { result ≡ branch_extra mode cond cc }
{
    match (mode, cond) {
        (Mode::Relative16, Cond::Ra) => 0,
        (Mode::Relative16, _) => operations::condition(cc, cond) as u8,
        _ => 0,
    }
}

// This and `memory_extra` are two: each asks of an enum of its own, and no arm is in both, so that a trait would join nothing.
pub fn registers_extra(op: RegisterOp, mode: Mode, cc: CCBits) -> u8
    ensures { result ≡ registers_extra op mode cc }
{
    match op {
        RegisterOp::Branch(cond) => branch_extra(mode, cond, cc),
        _ => 0,
    }
}

// RTI pulls nine bytes more where E of the CC on the stack is set.
fn return_extra(mem: &[u8], regs: Set) -> u8
    ensures { result ≡ return_extra mem.now regs }
{
    let cc = CCBits::set_from_byte(memory::read_u8(mem, regs.s));
    if cc.is_set(CCBit::E) { 9 } else { 0 }
}

pub fn memory_extra(op: MemoryOp, mem: &[u8], regs: Set, ea: u16) -> u8
    ensures { result ≡ memory_extra op mem.now regs ea }
{
    match op {
        MemoryOp::Rti => return_extra(mem, regs),
        MemoryOp::Push(_) | MemoryOp::Pull(_) => stack::bytes_of(memory::read_u8(mem, ea)),
        _ => 0,
    }
}

// Three bytes fit a word.
pub fn cost(base: u8, operand: u8, operation: u8) -> u16
    ensures { result ≡ base + (operand + operation) }
{
    base as u16 + (operand as u16 + operation as u16)
}
