// Operations on words.
// Beside those of bytes, which take a carry and the flag setting: what both share takes `half`, and is in numbers.rt.
ghost use Rattle.std.specs.Prelude.{◌≡◌, ◌<◌};
ghost use Rattle.u8oru16.specs.Negated.{sign_extended};
ghost use Rattle.u8oru16.specs.Value.{value_of};
ghost use Rattle.u8oru16.specs.declared.u8u16.TheVariants.{u8 as one_byte};
ghost use Rattle.registers.specs.Arithmetic.{ADDD, SUBD, MUL, of_page, codes, logical, manual};
ghost use Rattle.whole.specs.Inherent.{extended_of};
ghost use Rattle.whole.specs.Parts.{page_of};

use super::flags::put;
use super::numbers::{Parts, all_flags, difference, sign_and_zero, sum};
use registers::{CCBit, CCBits, Out};

// Beside `out`: the two differ in the cast to `u8` or `u16` and its bound, and one for both would need a trait for it.
fn out_word(cc: CCBits, parts: Parts) -> Out<u16>
    requires { parts.value < 65536 }
    ensures { result ≡ of_page cc (page_of 0x8000 parts) }
{
    Out {
        cc: all_flags(cc, parts, 0x8000),
        value: parts.value as u16,
    }
}

pub fn add_words(cc: CCBits, a: u16, b: u16) -> Out<u16>
    ensures { result ≡ of_page cc (manual ADDD cc a b) }
{
    out_word(cc, sum(a as u32, b as u32, 0, 0x8000))
}

pub fn subtract_words(cc: CCBits, a: u16, b: u16) -> Out<u16>
    ensures { result ≡ of_page cc (manual SUBD cc a b) }
{
    out_word(cc, difference(a as u32, b as u32, 0, 0x8000))
}

pub fn compare_words(cc: CCBits, a: u16, b: u16) -> CCBits
    ensures { result ≡ codes cc (manual SUBD cc a b).flags }
{
    subtract_words(cc, a, b).cc
}

// Loads and stores: N and Z by the word, V cleared.
pub fn test_word(cc: CCBits, m: u16) -> CCBits
    ensures { result ≡ codes cc (logical 0x8000 m).flags }
{
    sign_and_zero(put(cc, CCBit::V, false), m as u32, 0x8000)
}

// MUL. C is bit 7 of the product, for rounding its high byte.
pub fn multiply(cc: CCBits, a: u8, b: u8) -> Out<u16>
    ensures { result ≡ of_page cc (manual MUL cc a b) }
{
    let product = (a as u16) * (b as u16);
    let rounded = put(cc, CCBit::C, product / 128 % 2 == 1);
    Out {
        cc: put(rounded, CCBit::Z, product == 0),
        value: product,
    }
}

// A byte read as signed, as a word.
fn extended(b: u8) -> u16
    ensures { result ≡ value_of (sign_extended (one_byte b)) }
{
    if b < 0x80 {
        b as u16
    } else {
        0xFF00 + b as u16
    }
}

// SEX.
pub fn sign_extend(cc: CCBits, b: u8) -> Out<u16>
    ensures { result ≡ extended_of cc b }
{
    let word = extended(b);
    Out {
        cc: sign_and_zero(cc, word as u32, 0x8000),
        value: word,
    }
}
