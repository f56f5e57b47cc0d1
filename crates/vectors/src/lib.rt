// Interrupts (document 01, section "Interrupts, SWI, reset"): the table of vectors, how one is served, and the waits.
#![tactic(auto)]

mod service;
mod table;
mod waits;

pub use service::{serve, take_vector};
pub use table::Vector;
pub use waits::{synchronize, wait_for_interrupt};
