// The opcode table: three pages of 256 places (plain, after 10, after 11), the manual's documented instructions only.
#![tactic(auto)]

mod eleven;
mod plain;
mod table;
mod ten;

pub use table::{all, lookup};
