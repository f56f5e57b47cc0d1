// Operations on bytes: an accumulator with a byte, one byte alone, TST, and the stores of bytes.
ghost use Rattle.std.specs.Prelude.{◌≡◌};
ghost use Rattle.operations.specs.EightBit.{alu_of, unary_of, on_operand, on_accumulator, tested, on_memory, store8};

use machine::Effect;
use opcodes::{Acc, Alu, Unary};
use operations::{accumulator, one_write, with_accumulator, with_codes};
use registers::{CCBits, Flags, Out, Set};

// CMP and BIT are SUB and AND whose result is not kept.
fn operate(flags: Flags, op: Alu, cc: CCBits, a: u8, m: u8) -> Out<u8>
    ensures { result ≡ alu_of op flags cc a m }
{
    match op {
        Alu::Add => whole::add(cc, a, m, false, flags),
        Alu::Adc => whole::add(cc, a, m, true, flags),
        Alu::Sub => whole::subtract(cc, a, m, false, flags),
        Alu::Sbc => whole::subtract(cc, a, m, true, flags),
        Alu::Cmp => Out {
            cc: whole::compare(cc, a, m),
            value: a,
        },
        Alu::And => whole::and(cc, a, m),
        Alu::Bit => Out {
            cc: whole::test(cc, a & m),
            value: a,
        },
        Alu::Or => whole::or(cc, a, m),
        Alu::Eor => whole::exclusive_or(cc, a, m),
        Alu::Ld => whole::load(cc, m),
    }
}

pub fn changed(flags: Flags, op: Unary, cc: CCBits, m: u8) -> Out<u8>
    ensures { result ≡ unary_of op flags cc m }
{
    match op {
        Unary::Neg => whole::negate(cc, m),
        Unary::Com => whole::complement(cc, m),
        Unary::Lsr => whole::shift_right(cc, m, false),
        Unary::Ror => whole::rotate_right(cc, m),
        Unary::Asr => whole::shift_right(cc, m, true),
        Unary::Asl => whole::shift_left(cc, m),
        Unary::Rol => whole::rotate_left(cc, m),
        Unary::Dec => whole::decrement(cc, m, flags),
        Unary::Inc => whole::increment(cc, m, flags),
        Unary::Clr => whole::clear(cc),
    }
}

pub fn with_operand(flags: Flags, op: Alu, acc: Acc, regs: Set, m: u8) -> Set
    ensures { result ≡ on_operand op acc flags regs m }
{
    let a = accumulator(regs, acc);
    with_accumulator(regs, acc, operate(flags, op, regs.cc, a, m))
}

pub fn on_accumulator(flags: Flags, op: Unary, acc: Acc, regs: Set) -> Set
    ensures { result ≡ on_accumulator op acc flags regs }
{
    let a = accumulator(regs, acc);
    with_accumulator(regs, acc, changed(flags, op, regs.cc, a))
}

pub fn test(regs: Set, m: u8) -> Set
    ensures { result ≡ tested regs m }
{
    with_codes(regs, whole::test(regs.cc, m))
}

pub fn on_memory(flags: Flags, op: Unary, mem: &[u8], regs: Set, ea: u16) -> Effect
    ensures { result ≡ on_memory op flags mem.now regs ea }
{
    let out = changed(flags, op, regs.cc, memory::read_u8(mem, ea));
    Effect::stores(with_codes(regs, out.cc), one_write(ea, out.value))
}

pub fn store(regs: Set, acc: Acc, ea: u16) -> Effect
    ensures { result ≡ store8 regs acc ea }
{
    let value = accumulator(regs, acc);
    Effect::stores(test(regs, value), one_write(ea, value))
}
