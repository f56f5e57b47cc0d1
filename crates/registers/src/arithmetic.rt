// The arithmetic: a result and the condition codes after it.
ghost use Rattle.std.specs.Prelude.{◌≡◌};
ghost use Rattle.registers.specs.Arithmetic.{ADDD, SUB, SUBD, DEC, INC, AND, AND16, OR, EOR, COM, NEG, ASL, ROL, ROR, MUL, of_page, codes, adding, subtracting, shifting, carry_in, negative_and_zero, logical, manual};
ghost use Rattle.registers.specs.Settings.{by};

use crate::{CCBit, CCBits, Flags, Out, overflow};

// Each function of registers.rs has its like here, by its name, so that the two are laid beside each other (docs/DECISIONS.md, names).
impl CCBits {
    // 1 where the carry is asked for and set.
    fn carry_in(self, with_carry: bool) -> u8
        ensures { result ≡ carry_in with_carry self }
    {
        (with_carry & self.is_set(CCBit::C)) as u8
    }

    // Z and N by a result, below twice HALF.
    fn set_zn<const HALF: u32>(self, res: u32) -> CCBits
        ensures { result ≡ codes self (negative_and_zero HALF res) }
    {
        self.set(CCBit::Z, res == 0).set(CCBit::N, HALF <= res)
    }

    // The same, V cleared.
    fn tst<const HALF: u32>(self, res: u32) -> CCBits
        ensures { result ≡ codes self (logical HALF res).flags }
    {
        self.set(CCBit::V, false).set_zn::<HALF>(res)
    }

    pub fn add_u8(self, a: u8, b: u8, with_carry: bool, flags: Flags) -> Out<u8>
        ensures { result ≡ of_page self (by flags (adding with_carry) self a b) }
    {
        let c = self.carry_in(with_carry);
        let sum = a as u16 + b as u16 + c as u16;
        // A remainder and no low byte: the sum less the carry that C tells.
        let result = (sum % 0x100) as u8;
        let cv = self
            .set(CCBit::C, 0x100 <= sum)
            .set(CCBit::V, overflow::add_v(flags, a, b, c));
        Out {
            cc: cv
                .set_zn::<0x80>(result as u32)
                .set(CCBit::H, overflow::add_h(a, b, result)),
            value: result,
        }
    }

    // Beside `add_u8`: ADDD takes no carry, leaves H, and is the same in both settings, and one body would ask for the size each time.
    pub fn add_u16(self, a: u16, b: u16) -> Out<u16>
        ensures { result ≡ of_page self (manual ADDD self a b) }
    {
        let (result, carry) = a.overflowing_add(b);
        let (_, overflow) = a.cast_signed().overflowing_add(b.cast_signed());
        let cv = self.set(CCBit::C, carry).set(CCBit::V, overflow);
        Out {
            cc: cv.set_zn::<0x8000>(result as u32),
            value: result,
        }
    }

    // Beside `sub_u8`, likewise: SUBD takes no borrow and is the same in both settings.
    pub fn sub_u16(self, a: u16, b: u16) -> Out<u16>
        ensures { result ≡ of_page self (manual SUBD self a b) }
    {
        let (result, borrow) = a.overflowing_sub(b);
        let (_, overflow) = a.cast_signed().overflowing_sub(b.cast_signed());
        let cv = self.set(CCBit::C, borrow).set(CCBit::V, overflow);
        Out {
            cc: cv.set_zn::<0x8000>(result as u32),
            value: result,
        }
    }

    pub fn sub_u8(self, a: u8, b: u8, with_carry: bool, flags: Flags) -> Out<u8>
        ensures { result ≡ of_page self (by flags (subtracting with_carry) self a b) }
    {
        let c = self.carry_in(with_carry);
        let less = b as u16 + c as u16;
        // A remainder and no low byte: 100 is lent, and left out again.
        let result = ((a as u16 + 0x100 - less) % 0x100) as u8;
        let cv = self
            .set(CCBit::C, (a as u16) < less)
            .set(CCBit::V, overflow::sub_v(flags, a, b, c));
        Out {
            cc: cv.set_zn::<0x80>(result as u32),
            value: result,
        }
    }

    // DEC does not affect the carry flag.
    pub fn dec_u8(self, val: u8, flags: Flags) -> Out<u8>
        ensures { result ≡ of_page self (by flags DEC self val 0) }
    {
        let result = val.wrapping_sub(1);
        Out {
            cc: self
                .set(CCBit::V, overflow::dec_v(flags, val))
                .set_zn::<0x80>(result as u32),
            value: result,
        }
    }

    // INC does not affect the carry flag.
    pub fn inc_u8(self, val: u8, flags: Flags) -> Out<u8>
        ensures { result ≡ of_page self (by flags INC self val 0) }
    {
        let result = val.wrapping_add(1);
        Out {
            cc: self
                .set(CCBit::V, overflow::inc_v(flags, val))
                .set_zn::<0x80>(result as u32),
            value: result,
        }
    }

    // N and Z by a value, V cleared: loads, stores and tests.
    pub fn tst_u8(self, val: u8) -> CCBits
        ensures { result ≡ codes self (logical 0x80 val).flags }
    {
        self.tst::<0x80>(val as u32)
    }

    pub fn tst_u16(self, val: u16) -> CCBits
        ensures { result ≡ codes self (logical 0x8000 val).flags }
    {
        self.tst::<0x8000>(val as u32)
    }

    fn logic_u8(self, res: u8) -> Out<u8>
        ensures { result ≡ of_page self (logical 0x80 res) }
    {
        Out {
            cc: self.tst_u8(res),
            value: res,
        }
    }

    pub fn and_u8(self, val1: u8, val2: u8) -> Out<u8>
        ensures { result ≡ of_page self (manual AND self val1 val2) }
    {
        self.logic_u8(val1 & val2)
    }

    pub fn and_u16(self, val1: u16, val2: u16) -> Out<u16>
        ensures { result ≡ of_page self (manual AND16 self val1 val2) }
    {
        let result = val1 & val2;
        Out {
            cc: self.tst_u16(result),
            value: result,
        }
    }

    pub fn or_u8(self, val1: u8, val2: u8) -> Out<u8>
        ensures { result ≡ of_page self (manual OR self val1 val2) }
    {
        self.logic_u8(val1 | val2)
    }

    pub fn xor_u8(self, val1: u8, val2: u8) -> Out<u8>
        ensures { result ≡ of_page self (manual EOR self val1 val2) }
    {
        self.logic_u8(val1 ^ val2)
    }

    pub fn com_u8(self, val: u8) -> Out<u8>
        ensures { result ≡ of_page self (manual COM self val 0) }
    {
        let result = !val;
        Out {
            cc: self
                .set(CCBit::C, true)
                .set(CCBit::V, false)
                .set_zn::<0x80>(result as u32),
            value: result,
        }
    }

    pub fn neg_u8(self, val: u8) -> Out<u8>
        ensures { result ≡ of_page self (manual NEG self val 0) }
    {
        let result = val.wrapping_neg();
        Out {
            cc: self
                .set(CCBit::C, 0 < val)
                .set(CCBit::V, val == 0x80)
                .set_zn::<0x80>(result as u32),
            value: result,
        }
    }

    // The settings can part only where a borrow counts, so either serves.
    pub fn cmp_u8(self, val1: u8, val2: u8) -> CCBits
        ensures { result ≡ codes self (manual SUB self val1 val2).flags }
    {
        self.sub_u8(val1, val2, false, Flags::Manual).cc
    }

    pub fn cmp_u16(self, val1: u16, val2: u16) -> CCBits
        ensures { result ≡ codes self (manual SUBD self val1 val2).flags }
    {
        self.sub_u16(val1, val2).cc
    }

    pub fn shl_u8(self, val: u8) -> Out<u8>
        ensures { result ≡ of_page self (manual ASL self val 0) }
    {
        let c = 0x80 <= val;
        let result = val << 1;
        let n = 0x80 <= result;
        Out {
            cc: self
                .set(CCBit::C, c)
                .set(CCBit::V, n ^ c)
                .set_zn::<0x80>(result as u32),
            value: result,
        }
    }

    pub fn shr_u8(self, val: u8, preserve_sign: bool) -> Out<u8>
        ensures { result ≡ of_page self (manual (shifting preserve_sign) self val 0) }
    {
        let mut result = val >> 1;
        if preserve_sign {
            result |= val & 0x80;
        }
        Out {
            cc: self
                .set(CCBit::C, val & 1 == 1)
                .set_zn::<0x80>(result as u32),
            value: result,
        }
    }

    pub fn rol_u8(self, val: u8) -> Out<u8>
        ensures { result ≡ of_page self (manual ROL self val 0) }
    {
        let c = 0x80 <= val;
        let mut result = val << 1;
        if self.is_set(CCBit::C) {
            result |= 1;
        }
        let n = 0x80 <= result;
        Out {
            cc: self
                .set(CCBit::C, c)
                .set(CCBit::V, n ^ c)
                .set_zn::<0x80>(result as u32),
            value: result,
        }
    }

    pub fn ror_u8(self, val: u8) -> Out<u8>
        ensures { result ≡ of_page self (manual ROR self val 0) }
    {
        let mut result = val >> 1;
        if self.is_set(CCBit::C) {
            result |= 0x80;
        }
        Out {
            cc: self
                .set(CCBit::C, val & 1 == 1)
                .set_zn::<0x80>(result as u32),
            value: result,
        }
    }

    // The carry is bit 7 of the result.
    pub fn mul(self, a: u8, b: u8) -> Out<u16>
        ensures { result ≡ of_page self (manual MUL self a b) }
    {
        let d = (a as u16) * (b as u16);
        Out {
            cc: self.set(CCBit::C, d & 0x80 != 0).set(CCBit::Z, d == 0),
            value: d,
        }
    }
}
