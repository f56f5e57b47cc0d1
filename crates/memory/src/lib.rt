// The memory map (memory.rs): where a read or a write lands, byte and word access, and a call's writes carried out.
#![tactic(auto)]

mod access;
mod map;
mod writes;

pub use access::{write_u8, write_u8u16};
pub use map::{lands, place, read_u8, read_u8u16, read_u16};
pub use writes::{Write, Writes, read_u8_after, read_u16_after, store_all};

#[derive(Clone, Copy, PartialEq, Eq)]
pub enum AccessType {
    Program,
    UserStack,
    SystemStack,
    Generic,
    System,
}

// What becomes of a write.
#[derive(Clone, Copy, PartialEq, Eq)]
pub enum Landing {
    Stored(u16),
    Device,
    Ignored,
}
