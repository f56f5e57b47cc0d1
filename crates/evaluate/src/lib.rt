// What an instruction does: chooses the function of its operation, in `operations`, `stack` or `vectors`.
// The registers come with PC at the next instruction and the index register changed; `ea` is the effective address.
// Settings, memory, registers and address stay parameters: memory is lent, and the others are found one after the other.
#![tactic(auto)]

mod arms;

ghost use Rattle.std.specs.Prelude.{◌≡◌};
ghost use Rattle.evaluate.specs.Evaluate.{memory_of, evaluate_of};

pub use arms::{memory_arms, registers_arm};
use machine::{Effect, Settings};
use opcodes::{MemoryOp, Op};
use registers::{Set, Stack};
use vectors::Vector;

// The operations that may write memory, use a stack or wait.
pub fn evaluate_memory(op: MemoryOp, settings: Settings, mem: &[u8], regs: Set, ea: u16) -> Effect
    ensures { result ≡ memory_of op settings mem.now regs ea }
{
    match op {
        MemoryOp::OnMemory(unary) => operations::on_memory(settings.flags, unary, mem, regs, ea),
        MemoryOp::Store8(acc) => operations::store8(regs, acc, ea),
        MemoryOp::Store16(word) => operations::store16(regs, word, ea),
        MemoryOp::Bsr => stack::jump_to_subroutine(regs, ea),
        MemoryOp::Jsr => stack::jump_to_subroutine(regs, ea),
        MemoryOp::Rts => stack::pull(mem, regs, Stack::S, 0x80),
        MemoryOp::Rti => stack::return_from_interrupt(mem, regs),
        MemoryOp::Swi(which) => vectors::serve(mem, settings, regs, Vector::of_software(which)),
        MemoryOp::Cwai => vectors::wait_for_interrupt(regs, memory::read_u8(mem, ea)),
        MemoryOp::Sync => vectors::synchronize(regs),
        MemoryOp::Push(own) => stack::push(regs, own, memory::read_u8(mem, ea), false),
        MemoryOp::Pull(own) => stack::pull(mem, regs, own, memory::read_u8(mem, ea)),
    }
}

pub fn evaluate(op: Op, settings: Settings, mem: &[u8], regs: Set, ea: u16) -> Effect
    ensures { result ≡ evaluate_of op settings mem.now regs ea }
{
    match op {
        Op::Registers(operation) => {
            // An effect is no Result: a refused one gives back the registers from before. So an arm hands the refusal on, and no `?`.
            match operations::change(operation, settings.flags, mem, regs, ea) {
                Ok(after) => Effect::changes(after),
                Err(refusal) => Effect::refuses(regs, refusal),
            }
        }
        Op::Memory(operation) => evaluate_memory(operation, settings, mem, regs, ea),
    }
}
