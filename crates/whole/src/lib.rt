// The arithmetic of the second engine, in whole numbers. An operand is read twice: as an unsigned number, where a carry or a borrow shows,
// and as a signed one, where an overflow shows. Each function answers what the manual's page of its instruction says (registers/specs).
// Where one says again what `registers` or `operations` says, it does so to be independent of them (docs/TRAINING.md).
#![tactic(auto)]

mod bytes;
mod flags;
mod numbers;
mod shifts;
mod words;

pub use bytes::{
    add, and, clear, compare, complement, decimal_adjust, decrement, exclusive_or, increment, load,
    negate, or, subtract, test,
};
pub use flags::{is_set, put};
pub use shifts::{rotate_left, rotate_right, shift_left, shift_right};
pub use words::{add_words, compare_words, multiply, sign_extend, subtract_words, test_word};
