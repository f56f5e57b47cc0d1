// The register set and its names, 3A to 3D.
use super::case::{Case, Failure, Reply, Words, letter_at, single, sized};
use super::operands::{register, seeded, value};
use registers::{Name, Set, reg_size};
use u8oru16::u8u16;

pub fn answer(case: Case) -> Reply {
    match (case.function, case.words) {
        (0x3A, [name, 0, 0, 0]) => Ok(single(reg_size(register(name)?))),
        (0x3B, [name, index, 0, 0]) => Ok(letter(register(name)?, index)),
        (0x3C, [name, _, 0, 0]) => Ok(sized(Set::reset().get_register(register(name)?), 0)),
        (0x3D, [both, size, number, seed]) => Ok(set_then_get(
            register(both / 16)?,
            register(both % 16)?,
            value(size, number)?,
            seeded(seed),
        )),
        _ => Err(Failure::BadCase),
    }
}

fn letter(name: Name, index: u16) -> Words {
    single(letter_at(name.to_str().as_bytes(), index))
}

fn set_then_get(set: Name, read: Name, v: u8u16, regs: Set) -> Words {
    sized(regs.set_register(set, v).get_register(read), 0)
}
