// What a step costs beyond the figure that the opcode's fields give. What an operand costs is the first engine's: there is no flag in it.
ghost use Rattle.std.specs.Prelude.{◌≡◌};
ghost use Rattle.registers.specs.ConditionCodes.{coded, flag};
ghost use Rattle.registers.specs.declared.CCBit.TheVariants.{E};
ghost use Rattle.memory.specs.Map.{byte_at};
ghost use Rattle.cycles.specs.Cycles.{branch_extra, registers_extra, return_extra, memory_extra, operation_extra};

use opcodes::{Cond, MemoryOp, Mode, Op, RegisterOp};
use registers::{CCBit, CCBits, Set};

// A long branch on a condition costs one more where it is taken. LBRA has no condition; LBRN's never holds.
fn long_branch(mode: Mode, cond: Cond, cc: CCBits) -> u8
    ensures { result ≡ branch_extra mode cond cc }
{
    match mode {
        Mode::Relative16 => match cond {
            Cond::Ra => 0,
            _ => effects::condition(cc, cond) as u8,
        },
        _ => 0,
    }
}

fn on_registers(op: RegisterOp, mode: Mode, cc: CCBits) -> u8
    ensures { result ≡ registers_extra op mode cc }
{
    match op {
        RegisterOp::Branch(cond) => long_branch(mode, cond, cc),
        _ => 0,
    }
}

// E, the digit of weight 128 of the CC on the stack, says that the whole frame is there, and not CC and PC alone.
pub fn is_whole_frame(mem: &[u8], regs: Set) -> bool
    ensures { result ≡ flag E (coded (byte_at mem.now regs.s)) }
{
    let cc = CCBits {
        reg: memory::read_u8(mem, regs.s),
    };
    whole::is_set(cc, CCBit::E)
}

// RTI of a whole frame pulls nine bytes more.
fn whole_frame(mem: &[u8], regs: Set) -> u8
    ensures { result ≡ return_extra mem.now regs }
{
    if is_whole_frame(mem, regs) { 9 } else { 0 }
}

// A push or a pull costs one for each byte that its post-byte names.
fn on_memory(op: MemoryOp, mem: &[u8], regs: Set, ea: u16) -> u8
    ensures { result ≡ memory_extra op mem.now regs ea }
{
    match op {
        MemoryOp::Rti => whole_frame(mem, regs),
        MemoryOp::Push(_) | MemoryOp::Pull(_) => stack::bytes_of(memory::read_u8(mem, ea)),
        _ => 0,
    }
}

pub fn operation_extra(op: Op, mode: Mode, mem: &[u8], regs: Set, ea: u16) -> u8
    ensures { result ≡ operation_extra op mode mem.now regs ea }
{
    match op {
        Op::Registers(on) => on_registers(on, mode, regs.cc),
        Op::Memory(on) => on_memory(on, mem, regs, ea),
    }
}
