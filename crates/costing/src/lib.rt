// What the programs `cost` and `cost_unrecorded` share: the loop that is run, and where it starts. `tools/bench` counts what they execute.
// Their standard input is a letter, the count of steps in four bytes, the count of records after which the journal is emptied in two, high
// byte first, and memory from 1000 on.
#![tactic(auto)]

ghost use Rattle.std.specs.Prelude.{◌<◌};

use machine::{Machine, Settings};
use registers::{CCBits, Flags, Set};

pub const BYTES: usize = 0x10000;

pub type Memory = [u8; BYTES];

// The letter and the two counts.
pub const HEAD: usize = 7;

pub type Head = [u8; HEAD];

// The most bytes of memory that are read.
pub const LOOP: usize = 0x4000;

pub type Loop = [u8; LOOP];

const START: u16 = 0x1000;

pub fn settings() -> Settings {
    Settings::new(0x7FFF, Flags::Manual)
}

pub fn start() -> Machine {
    let regs = Set {
        x: 0x3000,
        y: 0x3100,
        u: 0x3200,
        s: 0x7000,
        pc: START,
        a: 1,
        b: 2,
        dp: 0,
        cc: CCBits::reset(),
    };
    Machine {
        regs,
        ..Machine::fresh()
    }
}

pub fn fill(mem: &mut Memory, code: &Loop) {
    mem[START as usize..START as usize + LOOP].copy_from_slice(code);
}

pub fn count_of(head: Head) -> u32 {
    let [_, b0, b1, b2, b3, ..] = head;
    u32::from_be_bytes([b0, b1, b2, b3])
}

// At least one record is held.
pub fn batch_of(head: Head) -> u32
    ensures { 0 < result }
{
    let [.., high, low] = head;
    (u16::from_be_bytes([high, low]) as u32).max(1)
}

// The low bytes of cycles and of the count of records.
pub fn report(machine: Machine, records: usize) -> [u8; 4] {
    let [c1, c0] = ((machine.cycles % 0x10000) as u16).to_be_bytes();
    let [r1, r0] = ((records % 0x10000) as u16).to_be_bytes();
    [c1, c0, r1, r0]
}
