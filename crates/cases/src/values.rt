// The functions on one- and two-byte values, 00 to 10.
use super::case::{Case, Failure, Reply, Words, single, sized};
use super::operands::{byte, truth, value};
use u8oru16::{Negated, u8u16};

pub fn answer(case: Case) -> Reply {
    match (case.function, case.words) {
        (0x00, [lsb, has_msb, msb, 0]) => joined(byte(lsb)?, truth(has_msb)?, byte(msb)?),
        (0x02, [number, 0, 0, 0]) => Ok(sized(u8u16::from_u16_shrink(number), 0)),
        (0x08, [size, number, length, fill]) => {
            as_bytes(value(size, number)?, length as usize, byte(fill)?)
        }
        (0x0C, [size, number, negative, 0]) => {
            Ok(negated(value(size, number)?.force_signed(truth(negative)?)))
        }
        (0x0E..=0x10, [size, number, other_size, other]) => of_two(
            case.function,
            value(size, number)?,
            value(other_size, other)?,
        ),
        (function, [size, number, 0, 0]) => of_one(function, value(size, number)?),
        _ => Err(Failure::BadCase),
    }
}

fn of_one(function: u8, v: u8u16) -> Reply {
    match function {
        0x01 => Ok(single(v.size())),
        0x03 => Ok(single(v.is_u8() as u16)),
        0x04 => Ok(single(v.u16())),
        0x05 => Ok(single(v.u8() as u16)),
        0x06 => Ok(single(v.lsb() as u16)),
        0x07 => Ok(v.msb().map_or([0; 3], |b| [1, b as u16, 0])),
        0x09 => Ok(single(v.i16().cast_unsigned())),
        0x0A => Ok(sized(v.twos_complement(), 0)),
        0x0B => Ok(negated(v.overflowing_negate())),
        0x0D => Ok(sized(v.sign_extended(), 0)),
        _ => Err(Failure::BadCase),
    }
}

fn of_two(function: u8, left: u8u16, right: u8u16) -> Reply {
    match function {
        0x0E => Ok(sized(left.signed_offset(right)?, 0)),
        0x0F => Ok(sized(left.div(right)?, 0)),
        _ => Ok(sized(left.modulo(right)?, 0)),
    }
}

// A flag and a byte, as the case has them in two words: the Option is made of them here.
fn joined(lsb: u8, has_msb: bool, msb: u8) -> Reply {
    Ok(sized(u8u16::new(lsb, has_msb.then_some(msb)), 0))
}

fn negated(n: Negated) -> Words {
    sized(n.value, n.overflow as u16)
}

// A buffer of so many bytes, all alike, and 00 past its end.
fn as_bytes(v: u8u16, length: usize, fill: u8) -> Reply {
    let mut bytes = [0u8; 4];
    let buffer = bytes.get_mut(..length).ok_or(Failure::BadCase)?;
    buffer.fill(fill);
    let count = v.get_as_bytes(buffer)?;
    let [b0, b1, b2, b3] = bytes;
    Ok([
        (count % 0x10000) as u16,
        u16::from_be_bytes([b0, b1]),
        u16::from_be_bytes([b2, b3]),
    ])
}
