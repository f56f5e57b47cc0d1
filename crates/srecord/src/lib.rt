// Motorola S-records (document 02, request [1]): a file of S0, S1 and S9 lines read into a memory, and a memory written as one.
#![tactic(auto)]

mod file;
mod layout;
mod line;
mod written;

pub use file::{line_end, read};
pub use line::{Line, line_of};
pub use written::write;
