// V: whether a signed sum or difference leaves its range, and how each setting puts it. H of a sum.
ghost use Rattle.std.specs.Prelude.{◌≡◌, ◌<◌, Bool};
ghost use Rattle.u8oru16.specs.Signed.{sum_out, diff_out};
ghost use Rattle.registers.specs.ConditionCodes.{bit_at};
ghost use Rattle.registers.specs.Arithmetic.{DEC, INC, carry_in, adding, subtracting};
ghost use Rattle.registers.specs.Settings.{by, after};
ghost use Rattle.registers.specs.declared.CCBit.TheVariants.{«V», H as half_carry};
ghost use Rattle.registers.specs.declared.CCBits.{CCBits};

use crate::Flags;

// The bit of a byte at place k, 0 the lowest.
// Each call gives k as a number, 3 or 7: a type for it would say no more. `stack` has its own, and this one is not public.
fn bit(byte: u8, k: u8) -> bool
    requires { k < 8 }
    ensures { result ≡ bit_at k byte }
{
    (byte >> k) % 2 == 1
}

// Whether a + b, or a - b, read as signed, leaves the range of a byte.
fn sum_leaves(a: u8, b: u8) -> bool
    ensures { result ≡ sum_out 0x80 a b 0 }
{
    a.cast_signed().overflowing_add(b.cast_signed()).1
}

fn difference_leaves(a: u8, b: u8) -> bool
    ensures { result ≡ diff_out 0x80 a b 0 }
{
    a.cast_signed().overflowing_sub(b.cast_signed()).1
}

// V of the setting's page after a sum, whatever condition codes bring the carry c.
// By the manual: V = a7·m7·r̄7 + ā7·m̄7·r7, with a and m for the operands and r for the result, which has the carry in it.
// As bought: the carry is added first, and either partial sum may leave the range.
// This and `sub_v` stand apart, each the formula of its page: one for both would hide what each says.
pub fn add_v(flags: Flags, a: u8, b: u8, c: u8) -> bool
    ensures { (ccr : CCBits) (asked : Bool) → carry_in asked ccr ≡ c → result ≡ after «V» flags (adding asked) ccr a b }
{
    match flags {
        Flags::Manual => {
            let r = a.wrapping_add(b).wrapping_add(c);
            let a7 = bit(a, 7);
            let m7 = bit(b, 7);
            let r7 = bit(r, 7);
            let below = a7 & m7 & !r7;
            let above = !a7 & !m7 & r7;
            below | above
        }
        Flags::Bought => {
            let a1 = a.wrapping_add(c);
            sum_leaves(a, c) | sum_leaves(a1, b)
        }
    }
}

// V after a difference, likewise; c is the borrow.
// By the manual: V = a7·m̄7·r̄7 + ā7·m7·r7. As bought: the borrow is taken off first.
pub fn sub_v(flags: Flags, a: u8, b: u8, c: u8) -> bool
    ensures { (ccr : CCBits) (asked : Bool) → carry_in asked ccr ≡ c → result ≡ after «V» flags (subtracting asked) ccr a b }
{
    match flags {
        Flags::Manual => {
            let r = a.wrapping_sub(b).wrapping_sub(c);
            let a7 = bit(a, 7);
            let m7 = bit(b, 7);
            let r7 = bit(r, 7);
            let below = a7 & !m7 & !r7;
            let above = !a7 & m7 & r7;
            below | above
        }
        Flags::Bought => {
            let a1 = a.wrapping_sub(c);
            difference_leaves(a, c) | difference_leaves(a1, b)
        }
    }
}

// H after a sum, with r for its result: H = a3·m3 + m3·r̄3 + r̄3·a3. It is the same in both settings, and the formula serves both.
pub fn add_h(a: u8, m: u8, r: u8) -> bool
    ensures { (s : Flags) (ccr : CCBits) (asked : Bool) → (by s (adding asked) ccr a m).value ≡ r → result ≡ after half_carry s (adding asked) ccr a m }
{
    let a3 = bit(a, 3);
    let m3 = bit(m, 3);
    let r3 = bit(r, 3);
    let both = a3 & m3;
    let with_m = m3 & !r3;
    let with_a = !r3 & a3;
    both | with_m | with_a
}

// V of the setting's page after DEC and INC, whatever the condition codes were. As bought: by the unsigned rule.
pub fn dec_v(flags: Flags, val: u8) -> bool
    ensures { (ccr : CCBits) → result ≡ after «V» flags DEC ccr val 0 }
{
    match flags {
        Flags::Manual => val == 0x80,
        Flags::Bought => val == 0,
    }
}

// Beside `dec_v`: the two numbers are all that each says.
pub fn inc_v(flags: Flags, val: u8) -> bool
    ensures { (ccr : CCBits) → result ≡ after «V» flags INC ccr val 0 }
{
    match flags {
        Flags::Manual => val == 0x7F,
        Flags::Bought => val == 0xFF,
    }
}
