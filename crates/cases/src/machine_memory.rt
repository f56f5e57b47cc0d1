// The memory that 40 to 47 act on, and 40 to 42 themselves.
use super::case::{Case, Failure, Reply, digested, single};
use super::digest::memory_digest;
use super::operands::{access, value};
use memory::AccessType;
use u8oru16::u8u16;

pub const BYTES: usize = 0x10000;

pub type Memory = [u8; BYTES];

// What stands at a place when a case starts.
fn pattern(place: u16) -> u8 {
    let p = place as u32;
    ((167 * p + 59 * (p / 256) + 13) % 256) as u8
}

// One memory serves all cases, since to lay it out takes longer than to answer: each case puts back what it changed.
pub fn fill(mem: &mut Memory) {
    for (place, b) in mem.iter_mut().enumerate() {
        *b = pattern(place as u16);
    }
}

// The place of a byte at an address, through the map. Past FFFF there is none.
fn place(at: u32) -> Option<u16> {
    u16::try_from(at).ok().map(|at| memory::place(at))
}

pub fn put(mem: &mut Memory, at: u32, b: u8) {
    if let Some(p) = place(at) {
        mem[p as usize] = b;
    }
}

pub fn put_back(mem: &mut Memory, at: u32) {
    if let Some(p) = place(at) {
        mem[p as usize] = pattern(p);
    }
}

// A word at an address and the next, for as long as a case takes.
pub fn put_word(mem: &mut Memory, at: u16, w: u16) {
    let [high, low] = w.to_be_bytes();
    put(mem, at as u32, high);
    put(mem, at as u32 + 1, low);
}

pub fn put_word_back(mem: &mut Memory, at: u16) {
    put_back(mem, at as u32);
    put_back(mem, at as u32 + 1);
}

// The word so many bytes above an address: the memory itself at both places, 00 past FFFF, and not by the reads that are compared.
pub fn raw_word(mem: &Memory, at: u16, above: u16) -> u16 {
    let high = at as u32 + above as u32;
    u16::from_be_bytes([raw_byte(mem, high), raw_byte(mem, high + 1)])
}

fn raw_byte(mem: &Memory, at: u32) -> u8 {
    place(at).map_or(0, |p| mem[p as usize])
}

// A word at FFFF is no case: the Rust has none there.
pub fn answer(case: Case, mem: &mut Memory) -> Reply {
    match (case.function, case.words) {
        (0x40, [at, 0, 0, 0]) => Ok(single(memory::read_u8(mem, at) as u16)),
        (0x41, [at, 0, 0, 0]) if at < 0xFFFF => Ok(single(memory::read_u16(mem, at))),
        (0x42, [ram_top, at, number, kind]) if (kind % 16 == 1) | (at < 0xFFFF) => write(
            mem,
            ram_top,
            access(kind / 16)?,
            at,
            value(kind % 16, number)?,
        ),
        _ => Err(Failure::BadCase),
    }
}

// A byte is written at the address, a word there and at the next: both are put back.
fn write(mem: &mut Memory, ram_top: u16, atype: AccessType, at: u16, v: u8u16) -> Reply {
    let wrote = memory::write_u8u16(mem, ram_top, atype, at, v);
    let shown = wrote.map(|_| digested(raw_word(mem, at, 0), memory_digest(mem)));
    put_word_back(mem, at);
    Ok(shown?)
}
