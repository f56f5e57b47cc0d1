// The condition code register as a number: each flag is a binary digit of it, with its weight.
ghost use Rattle.std.specs.Prelude.{◌≡◌, ◌^◌, ◌≤◌};
ghost use Rattle.registers.specs.Arithmetic.{carry_in};
ghost use Rattle.registers.specs.ConditionCodes.{place, put, flag};

use registers::{CCBit, CCBits};

fn weight(bit: CCBit) -> u8
    ensures { result ≡ 2 ^ place bit }
{
    match bit {
        CCBit::C => 1,
        CCBit::V => 2,
        CCBit::Z => 4,
        CCBit::N => 8,
        CCBit::I => 16,
        CCBit::H => 32,
        CCBit::F => 64,
        CCBit::E => 128,
    }
}

pub fn is_set(cc: CCBits, bit: CCBit) -> bool
    ensures { result ≡ flag bit cc }
{
    cc.reg / weight(bit) % 2 == 1
}

// Setting a flag that is clear adds its weight to the register, and clearing one that is set takes its weight off.
// Four cases: a test whether `state` and `is` differ would still have to ask which of them is true.
pub fn put(cc: CCBits, bit: CCBit, state: bool) -> CCBits
    ensures { result ≡ put bit state cc }
{
    let w = weight(bit);
    let is = is_set(cc, bit);
    if state {
        if is { cc } else { CCBits { reg: cc.reg + w } }
    } else {
        if is { CCBits { reg: cc.reg - w } } else { cc }
    }
}

// 1 where the carry is asked for and set.
pub fn carry_in(cc: CCBits, asked: bool) -> u32
    ensures value { result ≡ carry_in asked cc }
    ensures upper_bound { result ≤ 1 }
{
    (asked & is_set(cc, CCBit::C)) as u32
}
