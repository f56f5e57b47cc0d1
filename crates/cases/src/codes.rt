// The condition codes' own functions, 20 to 26.
use super::case::{Case, Failure, Reply, Words, letter_at, single};
use super::operands::{byte, codes, flag, truth};
use registers::{CCBit, CCBits};

// The first word is a byte for each of them.
pub fn answer(case: Case) -> Reply {
    let cc = codes(case.words[0])?;
    match (case.function, case.words) {
        (0x20, [bit, index, 0, 0]) => Ok(info(flag(bit)?, index)),
        (0x21, [_, bit, on, 0]) => Ok(after(cc.set(flag(bit)?, truth(on)?))),
        (0x22, [_, bit, 0, 0]) => Ok(single(cc.is_set(flag(bit)?) as u16)),
        (0x23, [_, b, 0, 0]) => Ok(after(CCBits::set_from_byte(byte(b)?))),
        (0x24, [_, b, 0, 0]) => Ok(after(cc.or_with_byte(byte(b)?))),
        (0x25, [_, 0, 0, 0]) => Ok(single(cc.get_as_byte() as u16)),
        (0x26, [_, 0, 0, 0]) => Ok(after(CCBits::reset())),
        _ => Err(Failure::BadCase),
    }
}

fn after(cc: CCBits) -> Words {
    single(cc.reg as u16)
}

fn info(bit: CCBit, index: u16) -> Words {
    let known = bit.info();
    [
        known.mask as u16,
        known.short as u16,
        letter_at(known.name.as_bytes(), index),
    ]
}
