// Sums and differences of numbers below 2·half, half being 80 for bytes and 8000 for words.
// `half` is a parameter with a bound: as a const parameter it would ask for the same `Width` and `Operands` in each contract.
ghost use Rattle.std.specs.Prelude.{◌≡◌, ◌+◌, ◌<◌, ◌≤◌, pos, ◌+ℤ◌, ◌-ℤ◌};
ghost use Rattle.std.specs.Int.Signed.{mag};
ghost use Rattle.u8oru16.specs.Signed.{signed, outside};
ghost use Rattle.registers.specs.Arithmetic.{codes, negative_and_zero};
ghost use Rattle.whole.specs.Parts.{Width, Operands, sum_of, difference_of, page_of};

use super::flags::put;
use registers::{CCBit, CCBits};

// A result; whether it went out of the unsigned range, by a carry or a borrow; whether it went out of the signed range.
#[derive(Clone, Copy)]
pub struct Parts {
    pub value: u32,
    pub carry: bool,
    pub overflow: bool,
}

// The number read as signed: from -half to half - 1.
fn signed(a: u32, half: u32) -> i32
    requires { Width half × (a < half + half) }
    ensures value { result ≡ signed half a }
    ensures result_bound { mag result < half }
{
    if a < half {
        a as i32
    } else {
        a as i32 - (half + half) as i32
    }
}

fn is_outside(z: i32, half: u32) -> bool
    requires { Width half }
    ensures { result ≡ outside half z }
{
    (z < -(half as i32)) | (half as i32 <= z)
}

fn signed_sum(a: u32, b: u32, c: u32, half: u32) -> i32
    requires { Operands half a b c }
    ensures value { result ≡ signed half a +ℤ signed half b +ℤ pos c }
    ensures result_bound { mag result < 0x80000000 }
{
    signed(a, half) + signed(b, half) + c as i32
}

// This and `difference` stand beside the sums: the operator is in each line, and one for both would be no plainer.
fn signed_difference(a: u32, b: u32, c: u32, half: u32) -> i32
    requires { Operands half a b c }
    ensures value { result ≡ signed half a -ℤ signed half b -ℤ pos c }
    ensures result_bound { mag result < 0x80000000 }
{
    signed(a, half) - signed(b, half) - c as i32
}

// a + b + c. An unsigned sum that does not fit leaves a carry.
pub(super) fn sum(a: u32, b: u32, c: u32, half: u32) -> Parts
    requires { Operands half a b c }
    ensures value { result ≡ sum_of half a b c }
    ensures value_bound { result.value < half + half }
{
    let total = a + b + c;
    Parts {
        value: total % (half + half),
        carry: half + half <= total,
        overflow: is_outside(signed_sum(a, b, c, half), half),
    }
}

// a - b - c. An unsigned difference that would be below 0 borrows.
pub(super) fn difference(a: u32, b: u32, c: u32, half: u32) -> Parts
    requires { Operands half a b c }
    ensures value { result ≡ difference_of half a b c }
    ensures value_bound { result.value < half + half }
{
    Parts {
        value: (a + (half + half) - (b + c)) % (half + half),
        carry: a < b + c,
        overflow: is_outside(signed_difference(a, b, c, half), half),
    }
}

// N where the result, read as signed, is below 0, and Z where it is 0.
pub(super) fn sign_and_zero(cc: CCBits, value: u32, half: u32) -> CCBits
    requires { Width half × (value < half + half) }
    ensures { result ≡ codes cc (negative_and_zero half value) }
{
    put(
        put(cc, CCBit::Z, value == 0),
        CCBit::N,
        signed(value, half) < 0,
    )
}

// The four flags of a sum or a difference.
pub(super) fn all_flags(cc: CCBits, parts: Parts, half: u32) -> CCBits
    requires { Width half × (parts.value < half + half) }
    ensures { result ≡ codes cc (page_of half parts).flags }
{
    let carried = put(cc, CCBit::C, parts.carry);
    sign_and_zero(put(carried, CCBit::V, parts.overflow), parts.value, half)
}
