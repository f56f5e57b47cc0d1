// The arithmetic, 27 to 39, with the flags as bought.
use super::case::{Case, Failure, Reply, Words};
use super::operands::{byte, codes, truth};
use registers::{CCBits, Flags, Out};

// After the condition codes stand two bytes and a bool; a byte and a bool; two words; two bytes; or one byte.
pub fn answer(case: Case) -> Reply {
    let cc = codes(case.words[0])?;
    match (case.function, case.words) {
        (0x27, [_, a, b, carry]) => {
            Ok(shown(cc.add_u8(byte(a)?, byte(b)?, truth(carry)?, Flags::Bought)))
        }
        (0x29, [_, a, b, carry]) => {
            Ok(shown(cc.sub_u8(byte(a)?, byte(b)?, truth(carry)?, Flags::Bought)))
        }
        (0x36, [_, a, keep, 0]) => Ok(shown(cc.shr_u8(byte(a)?, truth(keep)?))),
        (0x28, [_, a, b, 0]) => Ok(shown(cc.add_u16(a, b))),
        (0x2A, [_, a, b, 0]) => Ok(shown(cc.sub_u16(a, b))),
        (0x2E, [_, a, b, 0]) => Ok(shown(cc.and_u16(a, b))),
        (0x34, [_, a, b, 0]) => Ok(codes_alone(cc.cmp_u16(a, b))),
        (0x2D, [_, a, b, 0]) => Ok(shown(cc.and_u8(byte(a)?, byte(b)?))),
        (0x2F, [_, a, b, 0]) => Ok(shown(cc.or_u8(byte(a)?, byte(b)?))),
        (0x30, [_, a, b, 0]) => Ok(shown(cc.xor_u8(byte(a)?, byte(b)?))),
        (0x33, [_, a, b, 0]) => Ok(codes_alone(cc.cmp_u8(byte(a)?, byte(b)?))),
        (0x39, [_, a, b, 0]) => Ok(shown(cc.mul(byte(a)?, byte(b)?))),
        (function, [_, a, 0, 0]) => on_byte(function, cc, byte(a)?),
        _ => Err(Failure::BadCase),
    }
}

fn on_byte(function: u8, cc: CCBits, a: u8) -> Reply {
    let out = match function {
        0x2B => cc.dec_u8(a, Flags::Bought),
        0x2C => cc.inc_u8(a, Flags::Bought),
        0x31 => cc.com_u8(a),
        0x32 => cc.neg_u8(a),
        0x35 => cc.shl_u8(a),
        0x37 => cc.rol_u8(a),
        0x38 => cc.ror_u8(a),
        _ => return Err(Failure::BadCase),
    };
    Ok(shown(out))
}

fn shown<T: Into<u16>>(out: Out<T>) -> Words {
    [out.value.into(), out.cc.reg as u16, 0]
}

fn codes_alone(cc: CCBits) -> Words {
    [0, cc.reg as u16, 0]
}
