// What a word of a case stands for. A word that is out of range makes no case.
use super::case::Failure;
use memory::AccessType;
use opcodes::Mode;
use registers::{CCBit, CCBits, Name, Set};
use u8oru16::u8u16;

// The one that has a word's number, of all that there are.
pub fn numbered<T: Copy>(all: &[T], number: u16) -> Result<T, Failure> {
    all.get(number as usize).copied().ok_or(Failure::BadCase)
}

pub fn byte(w: u16) -> Result<u8, Failure> {
    Ok(u8::try_from(w)?)
}

pub fn truth(w: u16) -> Result<bool, Failure> {
    numbered(&[false, true], w)
}

pub fn value(size: u16, number: u16) -> Result<u8u16, Failure> {
    match size {
        1 => Ok(u8u16::u8(byte(number)?)),
        2 => Ok(u8u16::u16(number)),
        _ => Err(Failure::BadCase),
    }
}

pub fn codes(w: u16) -> Result<CCBits, Failure> {
    Ok(CCBits { reg: byte(w)? })
}

pub fn flag(w: u16) -> Result<CCBit, Failure> {
    numbered(
        &[
            CCBit::C,
            CCBit::V,
            CCBit::Z,
            CCBit::N,
            CCBit::I,
            CCBit::H,
            CCBit::F,
            CCBit::E,
        ],
        w,
    )
}

pub fn register(w: u16) -> Result<Name, Failure> {
    numbered(
        &[
            Name::A,
            Name::B,
            Name::D,
            Name::X,
            Name::Y,
            Name::U,
            Name::S,
            Name::PC,
            Name::DP,
            Name::CC,
        ],
        w,
    )
}

pub fn access(w: u16) -> Result<AccessType, Failure> {
    numbered(
        &[
            AccessType::Program,
            AccessType::UserStack,
            AccessType::SystemStack,
            AccessType::Generic,
            AccessType::System,
        ],
        w,
    )
}

// Of the first word of 43: the mode from bit 12 up, whether it is wide, whether the opcode is long, two bits that are not used, and the
// first operand byte. An immediate operand and a relative offset are the two that may be wide.
#[derive(Clone, Copy)]
pub struct Instruction {
    pub mode: Mode,
    pub is_long: bool,
    pub first: u8,
}

impl TryFrom<u16> for Instruction {
    type Error = Failure;

    fn try_from(w: u16) -> Result<Self, Failure> {
        let mode = match w / 0x800 {
            0x0 => Mode::Inherent,
            0x2 => Mode::Immediate8,
            0x3 => Mode::Immediate16,
            0x4 => Mode::Direct,
            0x6 => Mode::Indexed,
            0x8 => Mode::Extended,
            0xA => Mode::Relative8,
            0xB => Mode::Relative16,
            _ => return Err(Failure::BadCase),
        };
        Ok(Instruction {
            mode,
            is_long: truth(w / 0x400 % 2)?,
            first: byte(w % 0x400)?,
        })
    }
}

// The registers that a seed stands for. D is not stored: the seed's is 256 A + B.
pub fn seeded(n: u16) -> Set {
    let [a_high, a_low] = n.to_be_bytes();
    Set {
        x: n.wrapping_add(1),
        y: n.wrapping_add(2),
        u: n.wrapping_add(3),
        s: n.wrapping_add(4),
        pc: n.wrapping_add(5),
        a: a_low,
        b: a_high,
        dp: a_low.wrapping_add(6),
        cc: CCBits {
            reg: a_low.wrapping_add(7),
        },
    }
}

// The registers of 43, from its seed, the last two operand bytes and PC. The factors' parities are such that any two of D, X, Y,
// U, S, PC and DP with CC take every pair of values.
pub fn mixed(seed: u16, rest: u16, pc: u16) -> Set {
    let n = seed as u32;
    let r = rest as u32;
    let p = pc as u32;
    let [a, b] = low16(0x2C4B * r + 0x1A36 * p + 0x9E37).to_be_bytes();
    let [dp, reg] = low16(0x1E6A * n + 0x0D73 * r + 0x35BF * p + 0x6A09).to_be_bytes();
    Set {
        x: low16(0x1D2B * n + 0x0E52 * r + 0x3A8E * p + 0x51C1),
        y: low16(0x25A7 * n + 0x1F3A * r + 0x0B6D * p + 0xC2B2),
        u: low16(0x3163 * n + 0x2D59 * r + 0x17C2 * p + 0x27D4),
        s: low16(0x0F95 * n + 0x3B47 * r + 0x26E1 * p + 0xE913),
        pc,
        a,
        b,
        dp,
        cc: CCBits { reg },
    }
}

fn low16(sum: u32) -> u16 {
    (sum % 0x10000) as u16
}
