// The machine: registers, wait state, armed mark and counters; the settings given with each call; what an instruction does to it.
#![tactic(auto)]

mod fence;
mod record;

ghost use Rattle.std.specs.Prelude.{◌≡◌};
ghost use Rattle.machine.specs.Machine.{fresh, with_registers, marked, settings_of, settings_with};
ghost use Rattle.machine.specs.Effect.{changes, stores, refuses};

use answers::Refusal;
pub use fence::{Range, bars};
use memory::Writes;
pub use record::{
    ARMED, CYCLES, HEADER, INSTRUCTIONS, WAIT, counter_at, counter_of, front_of, machine_of,
    mark_byte, wait_byte,
};
use registers::{Flags, Set};

// Running, or waiting for an interrupt.
#[derive(Clone, Copy, PartialEq, Eq)]
pub enum Wait {
    Running,
    Cwai,
    Sync,
}

#[derive(Clone, Copy, PartialEq, Eq)]
pub struct Machine {
    pub cycles: u64,
    pub instructions: u64,
    pub regs: Set,
    pub wait: Wait,
    // S was loaded since the last reset: NMI is let in.
    pub armed: bool,
}

// Given with each call. The profile is the fence: a call stores only at places that one of its ranges has.
#[derive(Clone, Copy)]
pub struct Settings {
    pub ram_top: u16,
    pub profile: [Range; 8],
    pub flags: Flags,
}

// What an instruction does: the bytes to write, the registers and wait state after it, or its refusal.
// The answer stands beside the registers: a refused instruction gives back those that it was given.
#[derive(Clone, Copy)]
pub struct Effect {
    pub writes: Writes,
    pub regs: Set,
    pub wait: Wait,
    pub answer: Result<(), Refusal>,
}

impl Machine {
    // Running and unarmed, counters and registers 0, IRQ and FIRQ masked. Every machine that is not read back from bytes is made from this
    // one, by the two functions below: a new field is added here.
    pub fn fresh() -> Machine
        ensures { result ≡ fresh }
    {
        Machine {
            cycles: 0,
            instructions: 0,
            regs: Set::reset(),
            wait: Wait::Running,
            armed: false,
        }
    }

    // Counters and mark stay.
    pub fn with_registers(self, regs: Set, wait: Wait) -> Machine
        ensures { result ≡ with_registers self regs wait }
    {
        Machine { regs, wait, ..self }
    }

    // The mark alone changes.
    pub fn marked(self, armed: bool) -> Machine
        ensures { result ≡ marked self armed }
    {
        Machine { armed, ..self }
    }
}

impl Settings {
    // All allowed: the first range is 0000 to FFFF, the others are empty.
    pub fn new(ram_top: u16, flags: Flags) -> Settings
        ensures { result ≡ settings_of ram_top flags }
    {
        Settings::fenced(ram_top, flags, fence::all_allowed())
    }

    pub fn fenced(ram_top: u16, flags: Flags, profile: [Range; 8]) -> Settings
        ensures { result ≡ settings_with ram_top flags profile }
    {
        Settings {
            ram_top,
            profile,
            flags,
        }
    }
}

impl Effect {
    pub fn changes(regs: Set) -> Effect
        ensures { result ≡ changes regs }
    {
        Effect::stores(regs, Writes::none())
    }

    pub fn stores(regs: Set, writes: Writes) -> Effect
        ensures { result ≡ stores regs writes }
    {
        Effect {
            writes,
            regs,
            wait: Wait::Running,
            answer: Ok(()),
        }
    }

    pub fn refuses(regs: Set, refusal: Refusal) -> Effect
        ensures { result ≡ refuses regs refusal }
    {
        Effect {
            answer: Err(refusal),
            ..Effect::changes(regs)
        }
    }
}
