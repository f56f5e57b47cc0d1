// The MC6809's registers (registers.rs): the condition codes, whose methods are the arithmetic, and the register set.
// Where the Rust changes `&mut self`, a function here takes `self` and returns it.
#![tactic(auto)]

mod arithmetic;
mod condition_codes;
mod names;
mod overflow;
mod register_set;

pub use names::reg_size;

// The flags of the condition code register, from bit 0 up.
#[derive(Clone, Copy, PartialEq, Eq)]
pub enum CCBit {
    C,
    V,
    Z,
    N,
    I,
    H,
    F,
    E,
}

// The condition code register. Its methods are the fundamental math operations.
#[derive(Clone, Copy, PartialEq, Eq)]
pub struct CCBits {
    pub reg: u8,
}

// What is known of a flag: its mask, its letter, and its name.
#[derive(Clone, Copy)]
pub struct CCInfo {
    pub mask: u8,
    pub short: u8,
    pub name: &'static str,
}

// How V is set where the Rust and the manual part.
#[derive(Clone, Copy, PartialEq, Eq)]
pub enum Flags {
    Bought,
    Manual,
}

// A result of one byte or two, and the condition codes after it.
#[derive(Clone, Copy)]
pub struct Out<T> {
    pub cc: CCBits,
    pub value: T,
}

// The registers' names.
#[derive(Clone, Copy, PartialEq, Eq)]
pub enum Name {
    A,
    B,
    D,
    X,
    Y,
    U,
    S,
    PC,
    DP,
    CC,
}

// The registers of 16 bits that LD, ST and CMP name.
#[derive(Clone, Copy, PartialEq, Eq)]
pub enum Word {
    D,
    X,
    Y,
    U,
    S,
}

// The index registers, which a post-byte and LEA name.
#[derive(Clone, Copy, PartialEq, Eq)]
pub enum Index {
    X,
    Y,
    U,
    S,
}

// The stack pointers.
#[derive(Clone, Copy, PartialEq, Eq)]
pub enum Stack {
    S,
    U,
}

// The register set. D is 256 A + B and not stored. The words stand first, so that the struct has no gap.
#[derive(Clone, Copy, PartialEq, Eq)]
pub struct Set {
    pub x: u16,
    pub y: u16,
    pub u: u16,
    pub s: u16,
    pub pc: u16,
    pub a: u8,
    pub b: u8,
    pub dp: u8,
    pub cc: CCBits,
}
