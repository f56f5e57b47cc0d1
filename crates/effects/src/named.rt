// Operations without an operand: DAA, SEX, MUL, ABX.
ghost use Rattle.std.specs.Prelude.{◌≡◌};
ghost use Rattle.operations.specs.Inherent.{daa_of, sex_of, mul_of, abx_of};

use opcodes::Acc;
use operations::{with_accumulator, with_codes};
use registers::{Set, Word};

pub fn decimal_adjust(regs: Set) -> Set
    ensures { result ≡ daa_of regs }
{
    with_accumulator(regs, Acc::A, whole::decimal_adjust(regs.cc, regs.a))
}

pub fn sign_extend(regs: Set) -> Set
    ensures { result ≡ sex_of regs }
{
    let out = whole::sign_extend(regs.cc, regs.b);
    with_codes(regs, out.cc).with_word(Word::D, out.value)
}

// Beside `sign_extend`: the two part in one call, and a closure for it would be as long.
pub fn multiply(regs: Set) -> Set
    ensures { result ≡ mul_of regs }
{
    let out = whole::multiply(regs.cc, regs.a, regs.b);
    with_codes(regs, out.cc).with_word(Word::D, out.value)
}

// X and B, unsigned, without what does not fit a word. No flag.
pub fn add_b_to_x(regs: Set) -> Set
    ensures { result ≡ abx_of regs }
{
    let sum = regs.x as u32 + regs.b as u32;
    regs.with_word(Word::X, (sum % 65536) as u16)
}
