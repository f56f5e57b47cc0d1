// Operations on bytes.
ghost use Rattle.std.specs.Prelude.{◌≡◌, ◌<◌, ◌≤◌};
ghost use Rattle.registers.specs.Arithmetic.{SUB, DEC, INC, AND, OR, EOR, COM, NEG, adding, subtracting, of_page, codes, logical, manual};
ghost use Rattle.registers.specs.Settings.{by};
ghost use Rattle.registers.specs.declared.Flags.TheVariants.{Manual};
ghost use Rattle.opcodes.specs.declared.Unary.TheVariants.{Clr};
ghost use Rattle.operations.specs.EightBit.{unary_of};
ghost use Rattle.operations.specs.Inherent.{correction, corrected};
ghost use Rattle.whole.specs.Inherent.{decimal_of};
ghost use Rattle.whole.specs.Parts.{joined, sum_by, difference_by, page_of, count_v, count_page};

use super::flags::{carry_in, is_set, put};
use super::numbers::{Parts, all_flags, difference, sign_and_zero, sum};
use registers::{CCBit, CCBits, Flags, Out};

pub(super) fn out(cc: CCBits, parts: Parts) -> Out<u8>
    requires { parts.value < 256 }
    ensures { result ≡ of_page cc (page_of 0x80 parts) }
{
    Out {
        cc: all_flags(cc, parts, 0x80),
        value: parts.value as u8,
    }
}

// Two steps as one: the last result, and a flag where either step raised it.
fn join(first: Parts, second: Parts) -> Parts
    ensures { result ≡ joined first second }
{
    Parts {
        value: second.value,
        carry: first.carry | second.carry,
        overflow: first.overflow | second.overflow,
    }
}

// a + b + c. By the manual it is one sum. As bought the carry is added first and then b: either sum may leave the signed range.
fn sum_by(flags: Flags, a: u32, b: u32, c: u32) -> Parts
    requires { (a < 256) × (b < 256) × (c ≤ 1) }
    ensures value { result ≡ sum_by flags a b c }
    ensures value_bound { result.value < 256 }
{
    match flags {
        Flags::Manual => sum(a, b, c, 0x80),
        Flags::Bought => {
            let first = sum(a, c, 0, 0x80);
            join(first, sum(first.value, b, 0, 0x80))
        }
    }
}

// a - b - c, likewise.
// Beside `sum_by`: an operator as a parameter would take `sum` or `difference` as a closure, and be no plainer.
fn difference_by(flags: Flags, a: u32, b: u32, c: u32) -> Parts
    requires { (a < 256) × (b < 256) × (c ≤ 1) }
    ensures value { result ≡ difference_by flags a b c }
    ensures value_bound { result.value < 256 }
{
    match flags {
        Flags::Manual => difference(a, b, c, 0x80),
        Flags::Bought => {
            let first = difference(a, c, 0, 0x80);
            join(first, difference(first.value, b, 0, 0x80))
        }
    }
}

// ADD and ADC. H is set where the sum of the low digits does not fit a digit.
pub fn add(cc: CCBits, a: u8, b: u8, with_carry: bool, flags: Flags) -> Out<u8>
    ensures { result ≡ of_page cc (by flags (adding with_carry) cc a b) }
{
    let c = carry_in(cc, with_carry);
    let parts = sum_by(flags, a as u32, b as u32, c);
    let low = (a % 16) as u32 + (b % 16) as u32 + c;
    Out {
        cc: put(all_flags(cc, parts, 0x80), CCBit::H, 16 <= low),
        value: parts.value as u8,
    }
}

// SUB and SBC.
pub fn subtract(cc: CCBits, a: u8, b: u8, with_carry: bool, flags: Flags) -> Out<u8>
    ensures { result ≡ of_page cc (by flags (subtracting with_carry) cc a b) }
{
    let c = carry_in(cc, with_carry);
    out(cc, difference_by(flags, a as u32, b as u32, c))
}

// CMP: the settings can part only where a borrow counts, so either serves.
pub fn compare(cc: CCBits, a: u8, b: u8) -> CCBits
    ensures { result ≡ codes cc (manual SUB cc a b).flags }
{
    all_flags(cc, difference(a as u32, b as u32, 0, 0x80), 0x80)
}

// NEG: 0 - m.
pub fn negate(cc: CCBits, m: u8) -> Out<u8>
    ensures { result ≡ of_page cc (manual NEG cc m 0) }
{
    out(cc, difference(0, m as u32, 0, 0x80))
}

// V of INC and DEC: by the manual the overflow of m + 1 or m - 1, as bought its carry or borrow.
fn count_v(flags: Flags, parts: Parts) -> bool
    ensures { result ≡ count_v flags parts }
{
    match flags {
        Flags::Manual => parts.overflow,
        Flags::Bought => parts.carry,
    }
}

// INC and DEC leave C.
fn counted(cc: CCBits, parts: Parts, flags: Flags) -> Out<u8>
    requires { parts.value < 256 }
    ensures { result ≡ of_page cc (count_page flags parts) }
{
    let v = count_v(flags, parts);
    Out {
        cc: sign_and_zero(put(cc, CCBit::V, v), parts.value, 0x80),
        value: parts.value as u8,
    }
}

pub fn increment(cc: CCBits, m: u8, flags: Flags) -> Out<u8>
    ensures { result ≡ of_page cc (by flags INC cc m 0) }
{
    counted(cc, sum(m as u32, 1, 0, 0x80), flags)
}

// Beside `increment`: `counted` is what they share.
pub fn decrement(cc: CCBits, m: u8, flags: Flags) -> Out<u8>
    ensures { result ≡ of_page cc (by flags DEC cc m 0) }
{
    counted(cc, difference(m as u32, 1, 0, 0x80), flags)
}

// TST, loads and stores: N and Z by the byte, V cleared.
pub fn test(cc: CCBits, m: u8) -> CCBits
    ensures { result ≡ codes cc (logical 0x80 m).flags }
{
    sign_and_zero(put(cc, CCBit::V, false), m as u32, 0x80)
}

pub fn load(cc: CCBits, m: u8) -> Out<u8>
    ensures { result ≡ of_page cc (logical 0x80 m) }
{
    Out {
        cc: test(cc, m),
        value: m,
    }
}

// AND, OR and EOR: the operator is all that each says.
pub fn and(cc: CCBits, a: u8, b: u8) -> Out<u8>
    ensures { result ≡ of_page cc (manual AND cc a b) }
{
    load(cc, a & b)
}

pub fn or(cc: CCBits, a: u8, b: u8) -> Out<u8>
    ensures { result ≡ of_page cc (manual OR cc a b) }
{
    load(cc, a | b)
}

pub fn exclusive_or(cc: CCBits, a: u8, b: u8) -> Out<u8>
    ensures { result ≡ of_page cc (manual EOR cc a b) }
{
    load(cc, a ^ b)
}

// COM: 255 - m, with C set.
pub fn complement(cc: CCBits, m: u8) -> Out<u8>
    ensures { result ≡ of_page cc (manual COM cc m 0) }
{
    load(put(cc, CCBit::C, true), 255 - m)
}

pub fn clear(cc: CCBits) -> Out<u8>
    ensures { result ≡ unary_of Clr Manual cc 0 }
{
    load(put(cc, CCBit::C, false), 0)
}

fn correction(on: bool, n: u32) -> u32
    ensures value { result ≡ correction on n }
    ensures upper_bound { result ≤ n }
{
    if on { n } else { 0 }
}

// DAA. The low digit is too great where it is above 9 or H is set; the byte as a whole where it is above 99 or C is set.
fn decimal_sum(cc: CCBits, a: u8) -> u32
    ensures value { result ≡ corrected cc a }
    ensures upper_bound { result < 512 }
{
    let low = is_set(cc, CCBit::H) | (9 < a % 16);
    let high = is_set(cc, CCBit::C) | (0x99 < a);
    a as u32 + correction(low, 0x06) + correction(high, 0x60)
}

// C is set and never cleared; V is not affected.
pub fn decimal_adjust(cc: CCBits, a: u8) -> Out<u8>
    ensures { result ≡ decimal_of cc a }
{
    let total = decimal_sum(cc, a);
    let carry = is_set(cc, CCBit::C) | (256 <= total);
    let value = total % 256;
    Out {
        cc: sign_and_zero(put(cc, CCBit::C, carry), value, 0x80),
        value: value as u8,
    }
}
