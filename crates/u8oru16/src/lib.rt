// A value of one or two bytes (u8oru16.rs). A refusal is an answer where the Rust panics.
#![tactic(auto)]

ghost use Rattle.std.specs.Prelude.{◌≡◌};
ghost use Rattle.u8oru16.specs.Value.{size_of, value_of, is_byte, low_byte, high_byte, joined, shrunk, signed_of};
ghost use Rattle.u8oru16.specs.Negated.{negated, negated_wide, forced, sign_extended};
ghost use Rattle.u8oru16.specs.Answers.{offset_by, divided, remainder, written_of, bytes_written};

use answers::Refusal;

#[derive(Clone, Copy, PartialEq, Eq)]
pub enum u8u16 {
    u8(u8),
    u16(u16),
}

// A value, and whether it left the range of its sign.
// No `Option`: the value is told in both cases.
#[derive(Clone, Copy, PartialEq, Eq)]
pub struct Negated {
    pub value: u8u16,
    pub overflow: bool,
}

// The functions keep the names of u8oru16.rs, and are no `From`: they are laid beside it (docs/DECISIONS.md, names).
impl u8u16 {
    pub fn new(lsb: u8, msb: Option<u8>) -> Self
        ensures { result ≡ joined lsb msb }
    {
        if let Some(hi) = msb {
            u8u16::u16(u16::from_be_bytes([hi, lsb]))
        } else {
            u8u16::u8(lsb)
        }
    }

    pub fn size(self) -> u16
        ensures { result ≡ size_of self }
    {
        match self {
            u8u16::u8(_) => 1,
            u8u16::u16(_) => 2,
        }
    }

    pub fn from_u16_shrink(val: u16) -> u8u16
        ensures { result ≡ shrunk val }
    {
        if val < 256 {
            u8u16::u8(val as u8)
        } else {
            u8u16::u16(val)
        }
    }

    pub fn is_u8(self) -> bool
        ensures { result ≡ is_byte self }
    {
        matches!(self, u8u16::u8(_))
    }

    pub fn u16(self) -> u16
        ensures { result ≡ value_of self }
    {
        match self {
            u8u16::u8(val) => val as u16,
            u8u16::u16(val) => val,
        }
    }

    pub fn u8(self) -> u8
        ensures { result ≡ low_byte self }
    {
        match self {
            u8u16::u8(val) => val,
            u8u16::u16(val) => val.to_be_bytes()[1],
        }
    }

    pub fn lsb(self) -> u8
        ensures { result ≡ low_byte self }
    {
        self.u8()
    }

    pub fn msb(self) -> Option<u8>
        ensures { result ≡ high_byte self }
    {
        match self {
            u8u16::u8(_) => None,
            u8u16::u16(w) => Some(w.to_be_bytes()[0]),
        }
    }

    // The Rust writes a word's high byte before it finds no room for the low one: here the room is tested first.
    pub fn get_as_bytes(self, buf: &mut [u8]) -> Result<usize, Refusal>
        ensures value { result ≡ written_of self buf.old }
        ensures buf_after { buf.new ≡ bytes_written self buf.old }
    {
        if buf.len() < self.size() as usize {
            return Err(Refusal::NoRoom);
        }
        match self {
            u8u16::u8(b) => {
                buf[0] = b;
                Ok(1)
            }
            u8u16::u16(w) => {
                let [high, low] = w.to_be_bytes();
                buf[0] = high;
                buf[1] = low;
                Ok(2)
            }
        }
    }

    pub fn i16(self) -> i16
        ensures { result ≡ signed_of self }
    {
        self.sign_extended().u16().cast_signed()
    }

    pub fn twos_complement(self) -> Self
        ensures { result ≡ negated self }
    {
        match self {
            u8u16::u8(b) => u8u16::u8((!b).wrapping_add(1)),
            u8u16::u16(w) => u8u16::u16((!w).wrapping_add(1)),
        }
    }

    pub fn overflowing_negate(self) -> Negated
        ensures { result ≡ negated_wide self }
    {
        match self {
            u8u16::u8(b) => {
                if b > 0x80 {
                    let u = u8u16::u16(b as u16);
                    Negated {
                        value: u.twos_complement(),
                        overflow: true,
                    }
                } else {
                    Negated {
                        value: self.twos_complement(),
                        overflow: false,
                    }
                }
            }
            u8u16::u16(w) => Negated {
                value: self.twos_complement(),
                overflow: w > 0x8000,
            },
        }
    }

    pub fn force_signed(self, negative: bool) -> Negated
        ensures { result ≡ forced self negative }
    {
        let neg = self.overflowing_negate();
        if negative {
            neg
        } else {
            Negated {
                value: self,
                overflow: neg.overflow,
            }
        }
    }

    pub fn sign_extended(self) -> Self
        ensures { result ≡ sign_extended self }
    {
        match self {
            u8u16::u16(_) => self,
            u8u16::u8(b) => {
                let hi = if b < 0x80 { 0 } else { 0xFF };
                u8u16::new(b, Some(hi))
            }
        }
    }

    pub fn signed_offset(self, rhs: Self) -> Result<u8u16, Refusal>
        ensures { result ≡ offset_by self rhs }
    {
        match self {
            u8u16::u8(_) => Err(Refusal::LeftByte),
            u8u16::u16(w) => {
                let off = rhs.sign_extended().u16();
                Ok(u8u16::u16(w.wrapping_add(off)))
            }
        }
    }

    pub fn div(self, rhs: Self) -> Result<u8u16, Refusal>
        ensures { result ≡ divided self rhs }
    {
        let parted = match (self, rhs) {
            (u8u16::u8(a), u8u16::u8(b)) => a.checked_div(b).map(u8u16::u8),
            _ => self.u16().checked_div(rhs.u16()).map(u8u16::u16),
        };
        parted.ok_or(Refusal::DivisionByZero)
    }

    // Beside `div`: one for both would take a closure for bytes and one for words, and be no plainer.
    pub fn modulo(self, rhs: Self) -> Result<u8u16, Refusal>
        ensures { result ≡ remainder self rhs }
    {
        let parted = match (self, rhs) {
            (u8u16::u8(a), u8u16::u8(b)) => a.checked_rem(b).map(u8u16::u8),
            _ => self.u16().checked_rem(rhs.u16()).map(u8u16::u16),
        };
        parted.ok_or(Refusal::DivisionByZero)
    }
}
