// A host in Rattle: it calls each function that hosts in C and Rust call, on the firmware of examples/back.txt, and prints a line for each
// call: its number, PC, CC and cycles. What it prints is worked out by hand (README.md).
#![tactic(auto)]

mod played;

use host::{HostRange, HostSettings, HostTwin};
use std::io;

type Memory = [u8; 0x10000];

type Dump = [u8; 65568];

// Room for four records of 34 bytes, and one of 70 with twelve entries.
type Journal = [u8; 206];

// 0000 to FFFF, then seven empty ranges: the profile as a host has it, whose ranges are C's.
fn all_allowed() -> [HostRange; 8] {
    let mut profile = [HostRange { first: 1, last: 0 }; 8];
    profile[0] = HostRange {
        first: 0,
        last: 0xFFFF,
    };
    profile
}

// ram_top 7FFF, flags by the manual.
fn settings() -> HostSettings {
    HostSettings {
        ram_top: 0x7FFF,
        flags: 1,
        spare: 0,
        profile: all_allowed(),
    }
}

// LDS #000C; ANDCC #EF; NOP at 1000, the vectors of IRQ and reset.
fn load(rt: &HostRuntime, mem: &mut Memory) -> io::Result<()> {
    let loaded = host_calls::doorhawser_load(
        mem,
        b"S10A100010CE000C1CEF12DE\nS105BFF810062D\nS105BFFE10002D\nS9031000EC\n",
    );
    played::number(rt, loaded.answer)?;
    played::number(rt, loaded.start)
}

// Reset, two steps, IRQ, a step.
fn forward(rt: &HostRuntime, mem: &mut Memory, journal: &mut Journal) -> io::Result<HostTwin> {
    let start = host_calls::doorhawser_start();
    let reset = played::shown(
        rt,
        host_calls::doorhawser_reset(mem, journal, start, settings()),
    )?;
    let first = played::shown(
        rt,
        host_step::doorhawser_step(mem, journal, reset, settings()),
    )?;
    let second = played::shown(
        rt,
        host_step::doorhawser_step(mem, journal, first, settings()),
    )?;
    let taken = played::shown(
        rt,
        host_calls::doorhawser_interrupt(mem, journal, second, settings(), 0),
    )?;
    played::shown(
        rt,
        host_step::doorhawser_step(mem, journal, taken, settings()),
    )
}

// So many undos.
fn back(
    rt: &HostRuntime,
    mem: &mut Memory,
    journal: &Journal,
    twin: HostTwin,
    count: u8,
) -> io::Result<HostTwin> {
    let mut left = twin;
    for _ in 0..count {
        left = played::shown(rt, host_calls::doorhawser_undo(mem, journal, left))?;
    }
    Ok(left)
}

// Of five records the two oldest are dropped, which six are too many for; then three undos, and one that finds no record.
fn forget(
    rt: &HostRuntime,
    mem: &mut Memory,
    journal: &mut Journal,
    twin: HostTwin,
) -> io::Result<()> {
    let held = played::shown(rt, host_calls::doorhawser_drop(journal, twin, 6))?;
    let fewer = played::shown(rt, host_calls::doorhawser_drop(journal, held, 2))?;
    played::number(rt, fewer.records as u64)?;
    played::number(rt, fewer.bytes as u64)?;
    newest(rt, journal, fewer)?;
    back(rt, mem, journal, fewer, 4)?;
    Ok(())
}

// A run with an allowance and a stop address, and its line.
fn run(
    rt: &HostRuntime,
    mem: &mut Memory,
    journal: &mut Journal,
    twin: HostTwin,
    allowance: u64,
    stop: u32,
) -> io::Result<HostTwin> {
    played::stopped(
        rt,
        host_run_recorded::doorhawser_run(mem, journal, twin, settings(), allowance, stop),
    )
}

// Reset, a run up to 1006, one of a step from there, one of none, one until the journal is full, and one whose stop address names nothing.
fn runs(
    rt: &HostRuntime,
    mem: &mut Memory,
    journal: &mut Journal,
    start: HostTwin,
) -> io::Result<()> {
    let reset = played::shown(
        rt,
        host_calls::doorhawser_reset(mem, journal, start, settings()),
    )?;
    let there = run(rt, mem, journal, reset, 9, 0x1006)?;
    let past = run(rt, mem, journal, there, 1, 0x1006)?;
    let same = run(rt, mem, journal, past, 0, 0x10000)?;
    let full = run(rt, mem, journal, same, 9, 0x10000)?;
    run(rt, mem, journal, full, 9, 0x10001)?;
    Ok(())
}

// The same not recorded: NMI, before S is loaded and, by the host's own mark, after it, where there is no room on the stack; the second
// and third step in a run of two; FIRQ, which is masked; a run of seven in CWAI, whose first step is refused and does not count; and IRQ.
fn unrecorded(rt: &HostRuntime, mem: &mut Memory, twin: HostTwin) -> io::Result<()> {
    let reset = played::shown(
        rt,
        host_calls::doorhawser_reset_unrecorded(mem, twin, settings()),
    )?;
    let held_off = played::shown(
        rt,
        host_calls::doorhawser_interrupt_unrecorded(mem, reset, settings(), 2),
    )?;
    let armed = HostTwin {
        armed: 1,
        ..held_off
    };
    let refused = played::shown(
        rt,
        host_calls::doorhawser_interrupt_unrecorded(mem, armed, settings(), 2),
    )?;
    played::byte(rt, refused.armed)?;
    let first = played::shown(
        rt,
        host_step_unrecorded::doorhawser_step_unrecorded(mem, held_off, settings()),
    )?;
    played::byte(rt, first.armed)?;
    let ran = host_run::doorhawser_run_unrecorded(mem, first, settings(), 2);
    played::number(rt, ran.left)?;
    let third = played::shown(rt, ran.last)?;
    let masked = played::shown(
        rt,
        host_calls::doorhawser_interrupt_unrecorded(mem, third, settings(), 1),
    )?;
    let waits = HostTwin { wait: 1, ..masked };
    let stopped = host_run::doorhawser_run_unrecorded(mem, waits, settings(), 7);
    played::number(rt, stopped.left)?;
    played::shown(rt, stopped.last)?;
    played::shown(
        rt,
        host_calls::doorhawser_interrupt_unrecorded(mem, masked, settings(), 0),
    )?;
    Ok(())
}

// Numbers that name nothing; and bytes used beyond the journal's end, which are a number as any other.
fn unnamed(
    rt: &HostRuntime,
    mem: &mut Memory,
    journal: &mut Journal,
    twin: HostTwin,
) -> io::Result<()> {
    let waits = HostTwin { wait: 3, ..twin };
    played::shown(
        rt,
        host_step::doorhawser_step(mem, journal, waits, settings()),
    )?;
    let armed = HostTwin { armed: 2, ..twin };
    played::shown(rt, host_calls::doorhawser_undo(mem, journal, armed))?;
    played::shown(rt, host_calls::doorhawser_drop(journal, armed, 0))?;
    let bytes = HostTwin { bytes: 207, ..twin };
    played::shown(
        rt,
        host_calls::doorhawser_reset(mem, journal, bytes, settings()),
    )?;
    let flags = HostSettings {
        flags: 2,
        ..settings()
    };
    played::shown(
        rt,
        host_step_unrecorded::doorhawser_step_unrecorded(mem, twin, flags),
    )?;
    let spare = HostSettings {
        spare: 1,
        ..settings()
    };
    let ran = host_run::doorhawser_run_unrecorded(mem, twin, spare, 7);
    played::number(rt, ran.left)?;
    played::shown(rt, ran.last)?;
    played::shown(
        rt,
        host_calls::doorhawser_interrupt(mem, journal, twin, settings(), 3),
    )?;
    Ok(())
}

// Where the newest record stands.
fn newest(rt: &HostRuntime, journal: &Journal, twin: HostTwin) -> io::Result<()> {
    let part = host_calls::doorhawser_newest(journal, twin.records, twin.bytes);
    played::number(rt, part.at as u64)?;
    played::number(rt, part.count as u64)
}

// The memory written as S-records.
fn save(rt: &HostRuntime, mem: &Memory) -> io::Result<()> {
    let mut out = [0u8; 161];
    let written = host_calls::doorhawser_save(mem, 0x1000, &mut out);
    played::number(rt, written.answer)?;
    played::number(rt, written.count as u64)
}

// A torn file: a line, and one that is cut.
fn salvage(rt: &HostRuntime) -> io::Result<()> {
    let mut out = [0u8; 26];
    let mut list = [0u8; 8];
    let salvaged = host_calls::doorhawser_salvage(b"S10510005F5A31\nS1051002", &mut out, &mut list);
    played::number(rt, salvaged.answer)?;
    played::number(rt, salvaged.bytes as u64)?;
    played::number(rt, salvaged.numbers as u64)?;
    played::number(rt, salvaged.added)?;
    played::byte(rt, list[7])
}

// The instruction at 1000, in a line of 48 bytes and in one of 47.
fn lines(rt: &HostRuntime, mem: &Memory) -> io::Result<()> {
    let mut line = [0u8; 48];
    let told = host_disassemble::doorhawser_disassemble(mem, 0x1000, &mut line);
    played::number(rt, told.answer)?;
    played::number(rt, told.count)?;
    let mut short = [0u8; 47];
    let refused = host_disassemble::doorhawser_disassemble(mem, 0x1000, &mut short);
    played::number(rt, refused.answer)?;
    played::number(rt, refused.count)
}

// A dump of the twin as it ended, read back into another memory, and compared with the fresh twin; and a twin in no wait state.
fn dumps(
    rt: &HostRuntime,
    mem: &Memory,
    ended: HostTwin,
    none: HostTwin,
    out: &mut Dump,
    other: &mut Memory,
) -> io::Result<()> {
    let written = host_compare::doorhawser_dump(mem, ended, out);
    played::number(rt, written.answer)?;
    played::number(rt, written.count as u64)?;
    let read = host_compare::doorhawser_undump(other, out);
    let twin = read.twin;
    played::number(rt, read.answer)?;
    played::number(rt, twin.pc as u64)?;
    played::number(rt, twin.records as u64)?;
    played::number(rt, twin.bytes as u64)?;
    let mut list = [0u8; 85];
    let compared = host_compare::doorhawser_compare(other, twin, mem, none, &mut list);
    played::number(rt, compared.answer)?;
    played::number(rt, compared.count as u64)?;
    let waits = HostTwin { wait: 3, ..none };
    let refused = host_compare::doorhawser_compare(other, twin, mem, waits, &mut list);
    played::number(rt, refused.answer)?;
    played::number(rt, refused.count as u64)
}

fn main(rt: HostRuntime) -> io::Result<()> {
    let mut mem = [0u8; 0x10000];
    let mut journal = [0u8; 206];
    played::number(&rt, host_calls::doorhawser_abi())?;
    load(&rt, &mut mem)?;
    let ended = forward(&rt, &mut mem, &mut journal)?;
    newest(&rt, &journal, ended)?;
    // Of five records, and one undo that finds none.
    let none = back(&rt, &mut mem, &journal, ended, 6)?;
    newest(&rt, &journal, none)?;
    let again = forward(&rt, &mut mem, &mut journal)?;
    forget(&rt, &mut mem, &mut journal, again)?;
    save(&rt, &mem)?;
    salvage(&rt)?;
    lines(&rt, &mem)?;
    let mut dump = [0u8; 65568];
    let mut other = [0u8; 0x10000];
    dumps(&rt, &mem, ended, none, &mut dump, &mut other)?;
    runs(&rt, &mut mem, &mut journal, none)?;
    unrecorded(&rt, &mut mem, none)?;
    unnamed(&rt, &mut mem, &mut journal, none)?;
    Ok(())
}
