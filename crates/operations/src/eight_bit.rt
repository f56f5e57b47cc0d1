// 8-bit operations: an accumulator with a byte, one byte alone, TST, and the stores of bytes.
ghost use Rattle.std.specs.Prelude.{◌≡◌};
ghost use Rattle.registers.specs.declared.Flags.TheVariants.{Manual};
ghost use Rattle.opcodes.specs.declared.Unary.TheVariants.{Clr};
ghost use Rattle.operations.specs.EightBit.{accumulator, with_accumulator, alu_of, unary_of, on_operand, on_accumulator, tested, one_write, on_memory, store8};

use super::codes::with_codes;
use machine::Effect;
use memory::{Write, Writes};
use opcodes::{Acc, Alu, Unary};
use registers::{CCBit, CCBits, Flags, Out, Set};

pub fn accumulator(regs: Set, acc: Acc) -> u8
    ensures { result ≡ accumulator acc regs }
{
    match acc {
        Acc::A => regs.a,
        Acc::B => regs.b,
    }
}

pub fn with_accumulator(mut regs: Set, acc: Acc, out: Out<u8>) -> Set
    ensures { result ≡ with_accumulator acc out regs }
{
    regs.cc = out.cc;
    match acc {
        Acc::A => regs.a = out.value,
        Acc::B => regs.b = out.value,
    }
    regs
}

fn alu(flags: Flags, op: Alu, cc: CCBits, a: u8, m: u8) -> Out<u8>
    ensures { result ≡ alu_of op flags cc a m }
{
    match op {
        Alu::Add => cc.add_u8(a, m, false, flags),
        Alu::Adc => cc.add_u8(a, m, true, flags),
        Alu::Sub => cc.sub_u8(a, m, false, flags),
        Alu::Sbc => cc.sub_u8(a, m, true, flags),
        Alu::Cmp => Out {
            cc: cc.cmp_u8(a, m),
            value: a,
        },
        Alu::And => cc.and_u8(a, m),
        Alu::Bit => Out {
            value: a,
            ..cc.and_u8(a, m)
        },
        Alu::Or => cc.or_u8(a, m),
        Alu::Eor => cc.xor_u8(a, m),
        Alu::Ld => Out {
            cc: cc.tst_u8(m),
            value: m,
        },
    }
}

fn clear(cc: CCBits) -> Out<u8>
    ensures { result ≡ unary_of Clr Manual cc 0 }
{
    let cv = cc.set(CCBit::C, false).set(CCBit::V, false);
    Out {
        cc: cv.set(CCBit::Z, true).set(CCBit::N, false),
        value: 0,
    }
}

pub fn unary(flags: Flags, op: Unary, cc: CCBits, m: u8) -> Out<u8>
    ensures { result ≡ unary_of op flags cc m }
{
    match op {
        Unary::Neg => cc.neg_u8(m),
        Unary::Com => cc.com_u8(m),
        Unary::Lsr => cc.shr_u8(m, false),
        Unary::Ror => cc.ror_u8(m),
        Unary::Asr => cc.shr_u8(m, true),
        Unary::Asl => cc.shl_u8(m),
        Unary::Rol => cc.rol_u8(m),
        Unary::Dec => cc.dec_u8(m, flags),
        Unary::Inc => cc.inc_u8(m, flags),
        Unary::Clr => clear(cc),
    }
}

pub fn with_operand(flags: Flags, op: Alu, acc: Acc, regs: Set, m: u8) -> Set
    ensures { result ≡ on_operand op acc flags regs m }
{
    let a = accumulator(regs, acc);
    with_accumulator(regs, acc, alu(flags, op, regs.cc, a, m))
}

pub fn on_accumulator(flags: Flags, op: Unary, acc: Acc, regs: Set) -> Set
    ensures { result ≡ on_accumulator op acc flags regs }
{
    let a = accumulator(regs, acc);
    with_accumulator(regs, acc, unary(flags, op, regs.cc, a))
}

pub fn test(regs: Set, m: u8) -> Set
    ensures { result ≡ tested regs m }
{
    with_codes(regs, regs.cc.tst_u8(m))
}

// One byte written by the program.
pub fn one_write(at: u16, byte: u8) -> Writes
    ensures { result ≡ one_write at byte }
{
    Writes::none().add(Write {
        at,
        byte,
        system: false,
    })
}

pub fn on_memory(flags: Flags, op: Unary, mem: &[u8], regs: Set, ea: u16) -> Effect
    ensures { result ≡ on_memory op flags mem.now regs ea }
{
    let out = unary(flags, op, regs.cc, memory::read_u8(mem, ea));
    Effect::stores(with_codes(regs, out.cc), one_write(ea, out.value))
}

pub fn store8(regs: Set, acc: Acc, ea: u16) -> Effect
    ensures { result ≡ store8 regs acc ea }
{
    let value = accumulator(regs, acc);
    Effect::stores(test(regs, value), one_write(ea, value))
}
