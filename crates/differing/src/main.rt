// Scenes of two machines with their memories, worked out by hand (README.md). A scene prints a letter, the answer in decimal and the count of
// entries, then some of its entries: what, left and right.
#![tactic(auto)]

use machine::{Machine, Wait};
use registers::{CCBits, Set};
use std::io;

type Memory = [u8; 0x10000];

// Room for eighteen entries.
type List = [u8; 306];

// Room for 32,768 entries, and a byte less.
type Most = [u8; 557056];

type Less = [u8; 557055];

// A byte less than a memory, and a byte more.
type Short = [u8; 65535];

type Long = [u8; 65537];

fn entry(rt: &HostRuntime, list: &[u8], k: usize) -> io::Result<()> {
    let e = difference::entry_at(list, k);
    println!(rt; "{:02X} {:016X} {:016X}", e.what, e.left, e.right)
}

fn entries(rt: &HostRuntime, list: &[u8], count: usize) -> io::Result<()> {
    for k in 0..count {
        entry(rt, list, k)?;
    }
    Ok(())
}

fn scene(
    rt: &HostRuntime,
    letter: char,
    left: Machine,
    a: &[u8],
    right: Machine,
    b: &[u8],
    list: &mut [u8],
) -> io::Result<()> {
    let compared = difference::compare(left, a, right, b, list);
    let n = answers::number(&compared);
    println!(rt; "{letter} {n:02} {:04X}", compared.unwrap_or(0))
}

// Every field differs from the fresh machine's.
fn full() -> Machine {
    Machine {
        cycles: 0x8899_AABB_CCDD_EEFF,
        instructions: 0x0102_0304_0506_0708,
        regs: Set {
            x: 0x1111,
            y: 0x2222,
            u: 0x3333,
            s: 0x4444,
            pc: 0x5555,
            a: 0x0A,
            b: 0x0B,
            dp: 0x66,
            cc: CCBits { reg: 0x77 },
        },
        wait: Wait::Sync,
        armed: true,
    }
}

// A machine with other registers.
fn with(regs: Set) -> Machine {
    Machine::fresh().with_registers(regs, Wait::Running)
}

// Equal machines; all fields, from both sides; a list of exactly the right length, and one that is a byte short and stays; none.
fn all(rt: &HostRuntime, mem: &Memory, list: &mut List) -> io::Result<()> {
    scene(rt, 'A', Machine::fresh(), mem, Machine::fresh(), mem, list)?;
    scene(rt, 'B', full(), mem, full(), mem, list)?;
    scene(rt, 'C', full(), mem, Machine::fresh(), mem, list)?;
    entries(rt, list, 13)?;
    scene(rt, 'D', Machine::fresh(), mem, full(), mem, list)?;
    entry(rt, list, 0)?;
    entry(rt, list, 12)
}

fn room(rt: &HostRuntime, mem: &Memory) -> io::Result<()> {
    let mut exact = [0xEEu8; 221];
    scene(rt, 'E', full(), mem, Machine::fresh(), mem, &mut exact)?;
    entry(rt, &exact, 12)?;
    let mut short = [0xEEu8; 220];
    scene(rt, 'F', full(), mem, Machine::fresh(), mem, &mut short)?;
    entry(rt, &short, 0)?;
    entry(rt, &short, 11)?;
    let mut none = [0u8; 0];
    scene(rt, 'G', full(), mem, full(), mem, &mut none)?;
    scene(rt, 'H', full(), mem, Machine::fresh(), mem, &mut none)
}

// A fresh machine beside another, and the entry of what differs.
fn beside_fresh(
    rt: &HostRuntime,
    mem: &Memory,
    list: &mut List,
    letter: char,
    other: Machine,
) -> io::Result<()> {
    scene(rt, letter, Machine::fresh(), mem, other, mem, list)?;
    entry(rt, list, 0)
}

// Each register alone, then the wait state, the mark and each counter.
fn alone(rt: &HostRuntime, mem: &Memory, list: &mut List) -> io::Result<()> {
    let reset = Set::reset();
    beside_fresh(rt, mem, list, 'a', with(Set { a: 1, ..reset }))?;
    beside_fresh(rt, mem, list, 'b', with(Set { b: 1, ..reset }))?;
    beside_fresh(rt, mem, list, 'x', with(Set { x: 0x100, ..reset }))?;
    beside_fresh(rt, mem, list, 'y', with(Set { y: 0x100, ..reset }))?;
    beside_fresh(rt, mem, list, 'u', with(Set { u: 0x100, ..reset }))?;
    beside_fresh(rt, mem, list, 's', with(Set { s: 0x100, ..reset }))
}

fn alone_too(rt: &HostRuntime, mem: &Memory, list: &mut List) -> io::Result<()> {
    let reset = Set::reset();
    let fresh = Machine::fresh();
    let codes = CCBits { reg: 0x51 };
    let waits = fresh.with_registers(reset, Wait::Cwai);
    let armed = Machine {
        armed: true,
        ..fresh
    };
    let cycles = Machine {
        cycles: 0x8000_0000_0000_0000,
        ..fresh
    };
    let instructions = Machine {
        instructions: 1,
        ..fresh
    };
    beside_fresh(
        rt,
        mem,
        list,
        'p',
        with(Set {
            pc: 0xFFFF,
            ..reset
        }),
    )?;
    beside_fresh(rt, mem, list, 'd', with(Set { dp: 0xFF, ..reset }))?;
    beside_fresh(rt, mem, list, 'c', with(Set { cc: codes, ..reset }))?;
    beside_fresh(rt, mem, list, 'w', waits)?;
    beside_fresh(rt, mem, list, 'm', armed)?;
    beside_fresh(rt, mem, list, 'k', cycles)?;
    beside_fresh(rt, mem, list, 'i', instructions)
}

// One byte at 0000 and one at FFFF.
fn at_ends(mem: &mut Memory) {
    mem[0] = 1;
    mem[0xFFFF] = 1;
}

// Two runs with one equal byte between them, and runs across FF00 and FFE0.
fn in_runs(mem: &mut Memory) {
    mem[0x1000] = 1;
    mem[0x1001] = 2;
    mem[0x1003] = 3;
    mem[0xFEFF] = 4;
    mem[0xFF00] = 5;
    mem[0xFFDF] = 6;
    mem[0xFFE0] = 7;
}

fn ends(rt: &HostRuntime, mem: &Memory, other: &Memory, list: &mut List) -> io::Result<()> {
    scene(
        rt,
        '1',
        Machine::fresh(),
        mem,
        Machine::fresh(),
        other,
        list,
    )?;
    entries(rt, list, 2)
}

// With every field before them, and alone.
fn runs(rt: &HostRuntime, mem: &Memory, other: &Memory, list: &mut List) -> io::Result<()> {
    scene(rt, '2', full(), other, Machine::fresh(), mem, list)?;
    entry(rt, list, 12)?;
    entry(rt, list, 13)?;
    entry(rt, list, 16)?;
    scene(
        rt,
        '3',
        Machine::fresh(),
        other,
        Machine::fresh(),
        mem,
        list,
    )?;
    entries(rt, list, 4)
}

fn alternate(mem: &mut Memory) {
    for pair in mem.chunks_exact_mut(2) {
        pair[0] = 1;
    }
}

// Every second byte.
fn seconds(rt: &HostRuntime, mem: &Memory, other: &Memory, list: &mut Most) -> io::Result<()> {
    scene(
        rt,
        '4',
        Machine::fresh(),
        mem,
        Machine::fresh(),
        other,
        list,
    )?;
    entries(rt, list, 2)?;
    entry(rt, list, 32767)
}

// Every byte.
fn everywhere(rt: &HostRuntime, mem: &Memory, other: &Memory, list: &mut Most) -> io::Result<()> {
    scene(
        rt,
        '5',
        Machine::fresh(),
        mem,
        Machine::fresh(),
        other,
        list,
    )?;
    entry(rt, list, 0)
}

fn less_room(rt: &HostRuntime, mem: &Memory, other: &Memory, list: &mut Less) -> io::Result<()> {
    scene(
        rt,
        '6',
        Machine::fresh(),
        mem,
        Machine::fresh(),
        other,
        list,
    )?;
    entry(rt, list, 0)
}

// Memories of another length, on either side.
fn lengths(
    rt: &HostRuntime,
    mem: &Memory,
    short: &Short,
    long: &Long,
    list: &mut List,
) -> io::Result<()> {
    scene(rt, '7', full(), short, Machine::fresh(), mem, list)?;
    scene(rt, '8', full(), mem, Machine::fresh(), long, list)?;
    scene(rt, '9', full(), long, Machine::fresh(), short, list)?;
    entry(rt, list, 0)
}

fn main(rt: HostRuntime) -> io::Result<()> {
    let mem = [0u8; 0x10000];
    let mut list = [0u8; 306];
    lengths(&rt, &mem, &[0u8; 65535], &[0u8; 65537], &mut list)?;
    all(&rt, &mem, &mut list)?;
    room(&rt, &mem)?;
    alone(&rt, &mem, &mut list)?;
    alone_too(&rt, &mem, &mut list)?;
    let mut first = [0u8; 0x10000];
    at_ends(&mut first);
    ends(&rt, &mem, &first, &mut list)?;
    let mut second = [0u8; 0x10000];
    in_runs(&mut second);
    runs(&rt, &mem, &second, &mut list)?;
    let mut third = [0u8; 0x10000];
    alternate(&mut third);
    let mut most = [0u8; 557056];
    seconds(&rt, &mem, &third, &mut most)?;
    everywhere(&rt, &mem, &[1u8; 0x10000], &mut most)?;
    less_room(&rt, &mem, &third, &mut [0u8; 557055])
}
