// Decoding: the bytes at PC to an instruction or a refusal. No register and no pointer is read.
#![tactic(auto)]

mod instruction;
mod operand;
mod postbyte;

pub use instruction::{Instruction, decode, with_operand};
pub use operand::{Indexed, Operand, operand_at, signed_byte};
pub use postbyte::{Form, five_bits, form_of, index_of, is_indirect};
