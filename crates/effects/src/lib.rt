// What each operation does, worked out in whole numbers: the evaluators of the second engine.
// The registers come with PC at the next instruction and the index register changed; `ea` is the effective address.
// These come as parameters of their own, as in `operations`. This crate says again what `operations` and `evaluate` say, and takes no flag
// from their arithmetic: the second engine is there to be independent of it (docs/TRAINING.md).
#![tactic(auto)]

mod bytes;
mod jumps;
mod named;
mod words;

ghost use Rattle.std.specs.Prelude.{◌≡◌};
ghost use Rattle.operations.specs.Change.{changed_of};
ghost use Rattle.evaluate.specs.Evaluate.{memory_of, evaluate_of};

use answers::Refusal;
pub use jumps::condition;
use machine::{Effect, Settings};
use opcodes::{MemoryOp, Op, RegisterOp};
use registers::{Flags, Set, Stack};
use vectors::Vector;

// The operations that change registers alone. TFR and EXG may be refused.
fn change(op: RegisterOp, flags: Flags, mem: &[u8], regs: Set, ea: u16) -> Result<Set, Refusal>
    ensures { result ≡ changed_of op flags mem.now regs ea }
{
    match op {
        RegisterOp::Alu(alu, acc) => {
            let m = memory::read_u8(mem, ea);
            Ok(bytes::with_operand(flags, alu, acc, regs, m))
        }
        RegisterOp::OnAcc(unary, acc) => { Ok(bytes::on_accumulator(flags, unary, acc, regs)) }
        RegisterOp::TestAcc(acc) => { Ok(bytes::test(regs, operations::accumulator(regs, acc))) }
        RegisterOp::TestMemory => Ok(bytes::test(regs, memory::read_u8(mem, ea))),
        RegisterOp::Addd => Ok(words::add_to_d(mem, regs, ea)),
        RegisterOp::Subd => Ok(words::subtract_from_d(mem, regs, ea)),
        RegisterOp::Load16(word) => Ok(words::load(mem, regs, word, ea)),
        RegisterOp::Cmp16(word) => Ok(words::compare(mem, regs, word, ea)),
        RegisterOp::Lea(index) => Ok(words::load_address(regs, index, ea)),
        RegisterOp::Branch(cond) => Ok(jumps::branch(regs, cond, ea)),
        RegisterOp::Jmp => Ok(operations::jump(regs, ea)),
        RegisterOp::Nop => Ok(regs),
        RegisterOp::Daa => Ok(named::decimal_adjust(regs)),
        RegisterOp::Sex => Ok(named::sign_extend(regs)),
        RegisterOp::Mul => Ok(named::multiply(regs)),
        RegisterOp::Abx => Ok(named::add_b_to_x(regs)),
        RegisterOp::Andcc => { Ok(operations::and_codes(regs, memory::read_u8(mem, ea))) }
        RegisterOp::Orcc => { Ok(operations::or_codes(regs, memory::read_u8(mem, ea))) }
        RegisterOp::Exg => operations::exchange(regs, memory::read_u8(mem, ea)),
        RegisterOp::Tfr => operations::transfer(regs, memory::read_u8(mem, ea)),
    }
}

// The operations that may write memory, use a stack or wait. Frames, stacks and vectors are the first engine's: there is no flag arithmetic
// in them.
fn evaluate_memory(op: MemoryOp, settings: Settings, mem: &[u8], regs: Set, ea: u16) -> Effect
    ensures { result ≡ memory_of op settings mem.now regs ea }
{
    match op {
        MemoryOp::OnMemory(unary) => bytes::on_memory(settings.flags, unary, mem, regs, ea),
        MemoryOp::Store8(acc) => bytes::store(regs, acc, ea),
        MemoryOp::Store16(word) => words::store(regs, word, ea),
        MemoryOp::Bsr | MemoryOp::Jsr => stack::jump_to_subroutine(regs, ea),
        MemoryOp::Rts => stack::pull(mem, regs, Stack::S, 0x80),
        MemoryOp::Rti => stack::return_from_interrupt(mem, regs),
        MemoryOp::Swi(which) => vectors::serve(mem, settings, regs, Vector::of_software(which)),
        MemoryOp::Cwai => vectors::wait_for_interrupt(regs, memory::read_u8(mem, ea)),
        MemoryOp::Sync => vectors::synchronize(regs),
        MemoryOp::Push(own) => stack::push(regs, own, memory::read_u8(mem, ea), false),
        MemoryOp::Pull(own) => stack::pull(mem, regs, own, memory::read_u8(mem, ea)),
    }
}

// No `?`: an effect has its refusal within, with the registers as they were.
pub fn evaluate(op: Op, settings: Settings, mem: &[u8], regs: Set, ea: u16) -> Effect
    ensures { result ≡ evaluate_of op settings mem.now regs ea }
{
    match op {
        Op::Registers(operation) => match change(operation, settings.flags, mem, regs, ea) {
            Ok(after) => Effect::changes(after),
            Err(refusal) => Effect::refuses(regs, refusal),
        },
        Op::Memory(operation) => evaluate_memory(operation, settings, mem, regs, ea),
    }
}
