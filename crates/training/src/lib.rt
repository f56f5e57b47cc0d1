// The second engine, for the training room: it decodes an opcode by its bit fields (`fields`) and works flags out in whole numbers
// (`whole`, `effects`). Memory, the operand's bytes, addressing, stacks, vectors, interrupts, reset and the journal are the first engine's:
// there is neither the table nor flag arithmetic in them. Read decoding.rt first, then costs.rt, counts.rt and steps.rt.
// Its functions repeat what the first engine's do: neither may rest on the other's decoding or flags (docs/TRAINING.md).
#![tactic(auto)]

mod costs;
mod counts;
mod decoding;
mod engines;
mod recorded;
mod steps;

pub use decoding::decode;
pub use engines::{Engine, First, Second};
pub use recorded::{call, record_step};
pub use steps::{plan_step, step};
