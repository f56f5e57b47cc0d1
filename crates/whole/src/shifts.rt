// Shifts and rotates of a byte: twice the byte, or half of it.
// A shift and its rotate are one call each, which differ in what comes in: `sum` and `halve` are what they share.
ghost use Rattle.std.specs.Prelude.{◌≡◌, ◌≤◌};
ghost use Rattle.registers.specs.Arithmetic.{ASL, ROL, ROR, shifting, of_page, manual};
ghost use Rattle.whole.specs.Parts.{half_page};

use super::bytes::out;
use super::flags::{carry_in, put};
use super::numbers::{sign_and_zero, sum};
use registers::{CCBit, CCBits, Out};

// ASL: m + m.
pub fn shift_left(cc: CCBits, m: u8) -> Out<u8>
    ensures { result ≡ of_page cc (manual ASL cc m 0) }
{
    out(cc, sum(m as u32, m as u32, 0, 0x80))
}

// ROL: m + m and the carry.
pub fn rotate_left(cc: CCBits, m: u8) -> Out<u8>
    ensures { result ≡ of_page cc (manual ROL cc m 0) }
{
    out(cc, sum(m as u32, m as u32, carry_in(cc, true), 0x80))
}

// Half of m, with 256 in front of it where `top` is 1. What is left over is the carry.
fn halve(cc: CCBits, m: u8, top: u32) -> Out<u8>
    requires { top ≤ 1 }
    ensures { result ≡ of_page cc (half_page m top) }
{
    let total = 256 * top + m as u32;
    let value = total / 2;
    Out {
        cc: sign_and_zero(put(cc, CCBit::C, total % 2 == 1), value, 0x80),
        value: value as u8,
    }
}

// LSR, and ASR, which keeps the sign: half of a number read as signed, rounded down.
pub fn shift_right(cc: CCBits, m: u8, keep_sign: bool) -> Out<u8>
    ensures { result ≡ of_page cc (manual (shifting keep_sign) cc m 0) }
{
    let negative = 0x80 <= m;
    halve(cc, m, (keep_sign & negative) as u32)
}

// ROR: the carry stands in front of m.
pub fn rotate_right(cc: CCBits, m: u8) -> Out<u8>
    ensures { result ≡ of_page cc (manual ROR cc m 0) }
{
    halve(cc, m, carry_in(cc, true))
}
