// The condition code register, bit by bit.
ghost use Rattle.std.specs.Prelude.{◌≡◌, ◌^◌, bit_or};
ghost use Rattle.registers.specs.ConditionCodes.{place, told, info_of, coded, put, flag};

use crate::{CCBit, CCBits, CCInfo};

fn mask(bit: CCBit) -> u8
    ensures { result ≡ 2 ^ place bit }
{
    1 << bit as u8
}

impl CCBit {
    pub fn info(self) -> CCInfo
        ensures { told result ≡ info_of self }
    {
        let (short, name) = match self {
            CCBit::C => (b'C', "carry"),
            CCBit::V => (b'V', "overflow"),
            CCBit::Z => (b'Z', "zero"),
            CCBit::N => (b'N', "negative"),
            CCBit::I => (b'I', "IRQ mask"),
            CCBit::H => (b'H', "half carry"),
            CCBit::F => (b'F', "FIRQ mask"),
            CCBit::E => (b'E', "entire flag"),
        };
        CCInfo {
            mask: mask(self),
            short,
            name,
        }
    }
}

impl CCBits {
    // IRQ and FIRQ are masked.
    pub fn reset() -> CCBits
        ensures { result ≡ coded 0x50 }
    {
        CCBits { reg: 0x50 }
    }

    pub fn set_from_byte(byte: u8) -> CCBits
        ensures { result ≡ coded byte }
    {
        CCBits { reg: byte }
    }

    pub fn or_with_byte(self, byte: u8) -> CCBits
        ensures { result ≡ coded (bit_or self.reg byte) }
    {
        CCBits {
            reg: self.reg | byte,
        }
    }

    pub fn get_as_byte(self) -> u8
        ensures { result ≡ self.reg }
    {
        self.reg
    }

    pub fn set(self, bit: CCBit, val: bool) -> CCBits
        ensures { result ≡ put bit val self }
    {
        let m = mask(bit);
        if val {
            CCBits { reg: self.reg | m }
        } else {
            CCBits { reg: self.reg & !m }
        }
    }

    pub fn is_set(self, bit: CCBit) -> bool
        ensures { result ≡ flag bit self }
    {
        self.reg & mask(bit) != 0
    }
}
