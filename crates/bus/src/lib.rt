// Which bytes an instruction reads: specs/Reads.antt has their addresses, a clause for each operation. Here is how many they are, part by
// part (specs/Sums.antt); the program's own bytes are counted where its next address is known.
#![tactic(auto)]

ghost use Rattle.std.specs.Prelude.{◌≡◌};
ghost use Rattle.bus.specs.Reads.{registers_take, memory_takes};
ghost use Rattle.bus.specs.Sums.{pointer_count, operand_count, return_count, memory_count};

use decode::Operand;
use opcodes::{MemoryOp, Mode, RegisterOp};
use registers::{CCBit, CCBits, Set};

// The pointer of an indirect operand.
pub fn pointer_count(operand: Operand) -> u8
    ensures { result ≡ pointer_count operand }
{
    match operand {
        Operand::Indexed(indexed) if decode::is_indirect(indexed.post) => 2,
        _ => 0,
    }
}

// Of n bytes that an operation takes, those that are no bytes of the program.
pub fn operand_count(mode: Mode, n: u8) -> u8
    ensures { result ≡ operand_count mode n }
{
    match mode {
        Mode::Immediate8 | Mode::Immediate16 => 0,
        _ => n,
    }
}

// How many bytes of its operand an operation takes. This and `memory_takes` are two: each asks of an enum of its own.
pub fn registers_take(op: RegisterOp) -> u8
    ensures { result ≡ registers_take op }
{
    match op {
        RegisterOp::Alu(_, _)
        | RegisterOp::TestMemory
        | RegisterOp::Andcc
        | RegisterOp::Orcc
        | RegisterOp::Exg
        | RegisterOp::Tfr => 1,
        RegisterOp::Addd | RegisterOp::Subd | RegisterOp::Load16(_) | RegisterOp::Cmp16(_) => 2,
        _ => 0,
    }
}

pub fn memory_takes(op: MemoryOp) -> u8
    ensures { result ≡ memory_takes op }
{
    match op {
        MemoryOp::OnMemory(_) | MemoryOp::Push(_) | MemoryOp::Pull(_) | MemoryOp::Cwai => 1,
        _ => 0,
    }
}

// RTI pulls twelve bytes where E of the CC on the stack is set, else three.
fn return_count(mem: &[u8], regs: Set) -> u8
    ensures { result ≡ return_count mem.now regs }
{
    let cc = CCBits::set_from_byte(memory::read_u8(mem, regs.s));
    if cc.is_set(CCBit::E) { 12 } else { 3 }
}

// What an operation pulls, or reads of a vector.
pub fn memory_count(op: MemoryOp, mem: &[u8], regs: Set, ea: u16) -> u8
    ensures { result ≡ memory_count op mem.now regs ea }
{
    match op {
        MemoryOp::Rts => 2,
        MemoryOp::Rti => return_count(mem, regs),
        MemoryOp::Swi(_) => 3,
        MemoryOp::Pull(_) => stack::bytes_of(memory::read_u8(mem, ea)),
        _ => 0,
    }
}
