// An owner keeps a twin and lends it to each call: two steps, and three undos.
//
//   0100  12                NOP
//   0101  B7 02 00          STA >0200      A is 2A
//
// A line for each call: the answer's number, PC, the count of records, and the byte at 0200. What it prints is worked out by
// hand. NOP is one byte, STA extended three, and each leaves a record. The first undo puts 00 back at 0200, and PC and the count
// go back with each; the third undo finds no record (11) and leaves all as it stands.
#![tactic(auto)]

ghost use Rattle.journal.specs.Recorded.{in_hand, stepped};
ghost use Rattle.journal.specs.Undos.{undone};
ghost use Rattle.lent.specs.Lending.{Returns};

use journal::Twin;
use lent::Returned;
use machine::Settings;
use registers::Flags;
use std::io;

type Memory = [u8; 0x10000];

// Room for the records of NOP and STA, 34 and 37 bytes.
type Journal = [u8; 71];

const CELL: usize = 0x0200;

// The owner's side of a lent twin: it lies in a local, and the local is lent for the call.
fn step_owned(twin: Twin, mem: &mut [u8], journal: &mut [u8], settings: Settings) -> Returned
    ensures { Returns result mem.new journal.new (stepped settings (in_hand mem.old journal.old twin)) }
{
    let mut own = twin;
    let reported = lent::step(&mut own, mem, journal, settings);
    Returned {
        reported,
        twin: own,
    }
}

// Apart from `step_owned`, as the two calls are: the journal is only read.
fn undo_owned(twin: Twin, mem: &mut [u8], journal: &[u8]) -> Returned
    ensures { Returns result mem.new journal.now (undone (in_hand mem.old journal.now twin)) }
{
    let mut own = twin;
    let reported = lent::undo(&mut own, mem, journal);
    Returned {
        reported,
        twin: own,
    }
}

fn shown(rt: &HostRuntime, returned: Returned, byte: u8) -> io::Result<Twin> {
    let twin = returned.twin;
    println!(rt;
        "{:02} {:04X} {:X} {byte:02X}",
        answers::number(&returned.reported.answer),
        twin.machine.regs.pc,
        twin.records % 16
    )?;
    Ok(twin)
}

fn forward(
    rt: &HostRuntime,
    twin: Twin,
    mem: &mut Memory,
    journal: &mut Journal,
) -> io::Result<Twin> {
    let settings = Settings::new(0x7FFF, Flags::Manual);
    let returned = step_owned(twin, mem, journal, settings);
    shown(rt, returned, mem[CELL])
}

fn back(rt: &HostRuntime, twin: Twin, mem: &mut Memory, journal: &Journal) -> io::Result<Twin> {
    let returned = undo_owned(twin, mem, journal);
    shown(rt, returned, mem[CELL])
}

// A fresh machine at the program, with the byte to store.
fn start() -> Twin {
    let mut twin = Twin::fresh();
    twin.machine.regs.pc = 0x0100;
    twin.machine.regs.a = 0x2A;
    twin
}

fn main(rt: HostRuntime) -> io::Result<()> {
    let mut mem = [0u8; 0x10000];
    let mut journal = [0u8; 71];
    mem[0x0100..0x0103].copy_from_slice(&[0x12, 0xB7, 0x02]);
    let mut twin = start();
    for _ in 0..2 {
        twin = forward(&rt, twin, &mut mem, &mut journal)?;
    }
    for _ in 0..3 {
        twin = back(&rt, twin, &mut mem, &journal)?;
    }
    Ok(())
}
