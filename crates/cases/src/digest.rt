// Digests: registers and memory in 32 bits, for answers that have no room for them.
use super::machine_memory::Memory;
use registers::{Name, Set};

// Each byte counts FACTOR times as much as the next, modulo 2^32. FACTOR is odd, and no two of its powers within a digest are equal:
// a change of one byte shows, and so does an exchange of two.
const FACTOR: u32 = 0x01000193;

fn with_bytes(sum: u32, bytes: &[u8]) -> u32 {
    let mut all = sum;
    for b in bytes {
        all = all.wrapping_mul(FACTOR).wrapping_add(*b as u32);
    }
    all
}

// D is among them: the Rust stores it beside A and B.
fn with_registers(sum: u32, regs: Set) -> u32 {
    let d = regs.get_register(Name::D).u16();
    let words = [d, regs.x, regs.y, regs.u, regs.s, regs.pc];
    let all = words
        .iter()
        .fold(with_bytes(sum, &[regs.a, regs.b]), |sum, w| {
            with_bytes(sum, &w.to_be_bytes())
        });
    with_bytes(all, &[regs.dp, regs.cc.reg])
}

pub fn memory_digest(mem: &Memory) -> u32 {
    with_bytes(0, mem)
}

// An instruction's size, every register, and the memory.
pub fn machine_digest(size: u16, regs: Set, mem: &Memory) -> u32 {
    let start = with_bytes(0, &size.to_be_bytes());
    with_bytes(with_registers(start, regs), mem)
}

// Both halves of the memory's digest in one word.
pub fn short_digest(mem: &Memory) -> u16 {
    let all = memory_digest(mem);
    (all / 0x10000) as u16 ^ (all % 0x10000) as u16
}
