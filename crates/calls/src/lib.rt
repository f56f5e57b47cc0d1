// The calls on a machine: step, interrupt and reset (exec_next, start_interrupt, stack_for_interrupt and reset of runtime.rs).
// Each call makes a plan first, which reads memory and changes nothing, so that a refusal has nothing to take back. Then the plan is
// carried out.
// Memory, machine and settings stay three parameters: a host lends memory as a slice, keeps the machine, and gives settings to each call.
#![tactic(auto)]

mod decisions;
mod interrupts;
mod plain;
mod plans;
mod resets;
mod steps;

use answers::Refusal;
pub use decisions::{Decision, Kind, decide, is_plain};
pub use interrupts::{interrupt, plan_interrupt};
use machine::Machine;
use memory::Writes;
pub use plans::{carry_out, refused};
pub use resets::{plan_reset, reset};
pub use steps::{carry, fence, finish, plan_of, plan_step, step};

// What a call will do: the bytes to write, the machine after it, how many bytes it reads, and its answer. It is no Result, since a refused
// call hands back the machine that it was given (`RefusedCall` of specs/Calls.antt); nor is a report.
#[derive(Clone, Copy)]
pub struct Plan {
    pub writes: Writes,
    pub machine: Machine,
    pub reads: u8,
    pub answer: Result<(), Refusal>,
}

// What a call did: the device writes that it reports, the machine after it, how many bytes it read and wrote, and its answer.
#[derive(Clone, Copy)]
pub struct Report {
    pub devices: Writes,
    pub machine: Machine,
    pub reads: u8,
    pub writes: u8,
    pub answer: Result<(), Refusal>,
}

// The hardware interrupts.
#[derive(Clone, Copy)]
pub enum InterruptType {
    Irq,
    Firq,
    Nmi,
}
