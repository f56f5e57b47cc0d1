// The register set: read and written by name.
ghost use Rattle.std.specs.Prelude.{◌≡◌};
ghost use Rattle.registers.specs.RegisterSet.{after_reset, written, read, word_of, with_word, with_pc};

use crate::{CCBits, Name, Set, Word};
use u8oru16::u8u16;

impl Set {
    pub fn reset() -> Set
        ensures { result ≡ after_reset }
    {
        Set {
            x: 0,
            y: 0,
            u: 0,
            s: 0,
            pc: 0,
            a: 0,
            b: 0,
            dp: 0,
            cc: CCBits::reset(),
        }
    }

    pub fn set_register(mut self, reg: Name, val: u8u16) -> Set
        ensures { result ≡ written self reg val }
    {
        match reg {
            Name::A => self.a = val.u8(),
            Name::B => self.b = val.u8(),
            Name::D => [self.a, self.b] = val.u16().to_be_bytes(),
            Name::X => self.x = val.u16(),
            Name::Y => self.y = val.u16(),
            Name::U => self.u = val.u16(),
            Name::S => self.s = val.u16(),
            Name::PC => self.pc = val.u16(),
            Name::DP => self.dp = val.u8(),
            Name::CC => self.cc = CCBits::set_from_byte(val.u8()),
        }
        self
    }

    pub fn get_register(self, reg: Name) -> u8u16
        ensures { result ≡ read self reg }
    {
        match reg {
            Name::A => u8u16::u8(self.a),
            Name::B => u8u16::u8(self.b),
            Name::D => u8u16::new(self.b, Some(self.a)),
            Name::X => u8u16::u16(self.x),
            Name::Y => u8u16::u16(self.y),
            Name::U => u8u16::u16(self.u),
            Name::S => u8u16::u16(self.s),
            Name::PC => u8u16::u16(self.pc),
            Name::DP => u8u16::u8(self.dp),
            Name::CC => u8u16::u8(self.cc.get_as_byte()),
        }
    }

    pub fn word(self, reg: Word) -> u16
        ensures { result ≡ word_of self reg }
    {
        self.get_register(reg.name()).u16()
    }

    pub fn with_word(self, reg: Word, word: u16) -> Set
        ensures { result ≡ with_word self reg word }
    {
        self.set_register(reg.name(), u8u16::u16(word))
    }

    // The whole set, not PC alone: then the compiler keeps each register by itself (docs/PERFORMANCE.md).
    pub fn with_pc(self, pc: u16) -> Set
        ensures { result ≡ with_pc self pc }
    {
        Set {
            x: self.x,
            y: self.y,
            u: self.u,
            s: self.s,
            pc,
            a: self.a,
            b: self.b,
            dp: self.dp,
            cc: self.cc,
        }
    }
}
