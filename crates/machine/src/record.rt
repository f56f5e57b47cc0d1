// The machine as it stands at the front of a journal's record: its fields in the record's order, numbers high byte first.
ghost use Rattle.std.specs.Prelude.{◌≡◌, ◌+◌, ◌^◌, ◌≤◌, ◌<◌, get_or};
ghost use Rattle.machine.specs.Record.{Cycles, width, number_at, wait_byte, wait_of, mark_byte, mark_of, front, counter, registers_of, machine_of};

use super::{Machine, Wait};
use registers::{CCBits, Set};

// Where each field stands, after those before it.
const A: usize = 0;

const B: usize = A + 1;

const X: usize = B + 1;

const Y: usize = X + 2;

const U: usize = Y + 2;

const S: usize = U + 2;

const PC: usize = S + 2;

const DP: usize = PC + 2;

const CC: usize = DP + 1;

pub const WAIT: usize = CC + 1;

pub const ARMED: usize = WAIT + 1;

pub const CYCLES: usize = ARMED + 1;

// The bytes of a counter.
const COUNTER: usize = 8;

pub const INSTRUCTIONS: usize = CYCLES + COUNTER;

// How many bytes the fields take.
pub const HEADER: usize = INSTRUCTIONS + COUNTER;

// Functions and no `From`: the names of this one and the next say that the bytes are the record's.
pub fn wait_byte(wait: Wait) -> u8
    ensures { result ≡ wait_byte wait }
{
    wait as u8
}

pub fn mark_byte(armed: bool) -> u8
    ensures { result ≡ mark_byte armed }
{
    armed as u8
}

// The fields before the counters. The counters are apart from them, since the compiler stores an array of eight shifted bytes as one
// number and one of 32 byte by byte (docs/PERFORMANCE.md).
pub fn front_of(machine: Machine) -> [u8; CYCLES]
    ensures { result ≡ front machine }
{
    // Named, since all bytes but two are its own.
    let regs = machine.regs;
    let x = regs.x.to_be_bytes();
    let y = regs.y.to_be_bytes();
    let u = regs.u.to_be_bytes();
    let s = regs.s.to_be_bytes();
    let pc = regs.pc.to_be_bytes();
    let cc = regs.cc.get_as_byte();
    let wait = wait_byte(machine.wait);
    let mark = mark_byte(machine.armed);
    [
        regs.a, regs.b, x[0], x[1], y[0], y[1], u[0], u[1], s[0], s[1], pc[0], pc[1], regs.dp, cc,
        wait, mark,
    ]
}

// A function for one call: its name and `counter_at` say what the eight bytes are in a record.
pub fn counter_of(n: u64) -> [u8; COUNTER]
    ensures { result ≡ counter n }
{
    n.to_be_bytes()
}

// A byte past the end reads as 0.
// No `Option`: `number_at` of specs/Record gives each place a byte.
fn byte_at(r: &[u8], at: usize) -> u8
    ensures { result ≡ get_or r.now at 0 }
{
    r.get(at).copied().unwrap_or(0)
}

fn word_at(r: &[u8], at: usize) -> u16
    requires { at ≤ 0x100 }
    ensures { result ≡ number_at r.now at 2 }
{
    u16::from_be_bytes([byte_at(r, at), byte_at(r, at + 1)])
}

// The number that a counter's bytes stand for.
// Eight calls and no `array::from_fn`: with it the proof did not close.
fn number_at(r: &[u8], at: usize) -> u64
    requires { at ≤ 0x100 }
    ensures { result ≡ number_at r.now at (width Cycles) }
{
    u64::from_be_bytes([
        byte_at(r, at),
        byte_at(r, at + 1),
        byte_at(r, at + 2),
        byte_at(r, at + 3),
        byte_at(r, at + 4),
        byte_at(r, at + 5),
        byte_at(r, at + 6),
        byte_at(r, at + 7),
    ])
}

// The number of a counter's bytes from a place on.
pub fn counter_at(r: &[u8], at: usize) -> u64
    ensures { result ≡ number_at r.now at (width Cycles) }
{
    if r.len() < at {
        return 0;
    }
    number_at(&r[at..], 0)
}

// No `TryFrom`: `wait_of` and `mark_of` of specs/Record give each byte a meaning.
fn wait_of(b: u8) -> Wait
    ensures { result ≡ wait_of b }
{
    match b {
        0 => Wait::Running,
        1 => Wait::Cwai,
        _ => Wait::Sync,
    }
}

fn mark_of(b: u8) -> bool
    ensures { result ≡ mark_of b }
{
    b == 1
}

// The registers that a record holds.
fn registers_of(r: &[u8]) -> Set
    ensures { result ≡ registers_of r.now }
{
    Set {
        x: word_at(r, X),
        y: word_at(r, Y),
        u: word_at(r, U),
        s: word_at(r, S),
        pc: word_at(r, PC),
        a: byte_at(r, A),
        b: byte_at(r, B),
        dp: byte_at(r, DP),
        cc: CCBits::set_from_byte(byte_at(r, CC)),
    }
}

// The machine that a record holds.
pub fn machine_of(r: &[u8]) -> Machine
    ensures { result ≡ machine_of r.now }
{
    Machine {
        cycles: number_at(r, CYCLES),
        instructions: number_at(r, INSTRUCTIONS),
        regs: registers_of(r),
        wait: wait_of(byte_at(r, WAIT)),
        armed: mark_of(byte_at(r, ARMED)),
    }
}
