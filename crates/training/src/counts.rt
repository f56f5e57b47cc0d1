// How many bytes an instruction reads: its own, the pointer of an indirect operand, the operand, and what the operation pulls or reads of a
// vector.
ghost use Rattle.std.specs.Prelude.{◌+◌, ◌≤◌, ◌≡◌, length};
ghost use Rattle.bus.specs.Reads.{operand_taken, instruction_reads};
ghost use Rattle.bus.specs.Sums.{memory_count, fetched_count};

use super::costs::is_whole_frame;
use decode::Instruction;
use machine::Settings;
use opcodes::{MemoryOp, Op};
use registers::Set;

// Of the operand, an immediate one too, which is not read a second time. It is no `From`: an operation takes bytes, and is no number of
// them.
fn taken(op: Op) -> u8
    ensures { result ≡ operand_taken op }
{
    match op {
        Op::Registers(on) => bus::registers_take(on),
        Op::Memory(on) => bus::memory_takes(on),
    }
}

// RTI pulls CC and PC, or the whole frame.
fn pulled(op: MemoryOp, mem: &[u8], regs: Set, ea: u16) -> u8
    ensures { result ≡ memory_count op mem.now regs ea }
{
    match op {
        MemoryOp::Rti => if is_whole_frame(mem, regs) { 12 } else { 3 },
        _ => bus::memory_count(op, mem, regs, ea),
    }
}

fn fetched(op: Op, mem: &[u8], regs: Set, ea: u16) -> u8
    ensures { result ≡ fetched_count op mem.now regs ea }
{
    match op {
        Op::Registers(_) => 0,
        Op::Memory(on) => pulled(on, mem, regs, ea),
    }
}

// `was` are the registers before the instruction, `regs` those with PC at the next one. An instruction has at most five bytes.
pub fn count_reads(mem: &[u8], instruction: Instruction, was: Set, regs: Set, ea: u16) -> u8
    requires { (was.pc ≤ instruction.next) × (instruction.next ≤ was.pc + 5) }
    ensures { (s : Settings) → result ≡ length (instruction_reads instruction mem.now s was regs ea) }
{
    let op = instruction.entry.op;
    let own = (instruction.next - was.pc as u32) as u8;
    let pointer = bus::pointer_count(instruction.operand);
    let read = bus::operand_count(instruction.entry.mode, taken(op));
    own + (pointer + (read + fetched(op, mem, regs, ea)))
}
