// What the programs that play scenes share: the numbers in a line, what a scene starts with and how its undos end, and the fields of the
// lines that are printed.
#![tactic(auto)]

mod line;
mod printed;
mod start;

pub use line::{byte_at, length_at, long_at, word_at};
pub use printed::{
    byte_of, put_byte, put_bytes, put_decimal, put_devices, put_long, put_sum, put_view, put_word,
};
pub use start::{
    BYTES, CODE, Undone, fill, flags_of, interrupt_of, put_one, registers_at, undo_all, wait_of,
};
