// Operations on accumulators and X without an operand: DAA, SEX, MUL, ABX.
ghost use Rattle.std.specs.Prelude.{◌≡◌, ◌≤◌};
ghost use Rattle.operations.specs.Inherent.{correction, corrected, daa_of, sex_of, mul_of, abx_of};

use super::codes::with_codes;
use super::eight_bit::with_accumulator;
use opcodes::Acc;
use registers::{CCBit, CCBits, Out, Set, Word};
use u8oru16::u8u16;

// What is added to a digit that is corrected.
fn correction(on: bool, n: u16) -> u16
    ensures value { result ≡ correction on n }
    ensures upper_bound { result ≤ n }
{
    if on { n } else { 0 }
}

// DAA: the correction of the two digits.
fn decimal_sum(cc: CCBits, a: u8) -> u16
    ensures value { result ≡ corrected cc a }
    ensures upper_bound { result ≤ 0x165 }
{
    let low = a % 16;
    let high = a / 16;
    let low_wrong = cc.is_set(CCBit::H) | (9 < low);
    let high_wrong = cc.is_set(CCBit::C) | (9 < high) | ((8 < high) & (9 < low));
    a as u16 + correction(low_wrong, 6) + correction(high_wrong, 0x60)
}

// C is set and never cleared.
pub fn decimal_adjust(regs: Set) -> Set
    ensures { result ≡ daa_of regs }
{
    // Named, since three lines read it.
    let cc = regs.cc;
    let sum = decimal_sum(cc, regs.a);
    // A remainder and no low byte: the sum less the carry that C tells.
    let value = (sum % 256) as u8;
    let carry = cc.is_set(CCBit::C) | (256 <= sum);
    let codes = cc
        .set(CCBit::C, carry)
        .set(CCBit::Z, value == 0)
        .set(CCBit::N, 0x80 <= value);
    with_accumulator(regs, Acc::A, Out { cc: codes, value })
}

// SEX: N and Z are D's.
pub fn sign_extend(regs: Set) -> Set
    ensures { result ≡ sex_of regs }
{
    let d = u8u16::u8(regs.b).sign_extended().u16();
    let codes = regs.cc.set(CCBit::Z, d == 0).set(CCBit::N, 0x8000 <= d);
    with_codes(regs, codes).with_word(Word::D, d)
}

pub fn multiply(regs: Set) -> Set
    ensures { result ≡ mul_of regs }
{
    let out = regs.cc.mul(regs.a, regs.b);
    with_codes(regs, out.cc).with_word(Word::D, out.value)
}

pub fn add_b_to_x(regs: Set) -> Set
    ensures { result ≡ abx_of regs }
{
    regs.with_word(Word::X, regs.x.wrapping_add(regs.b as u16))
}
