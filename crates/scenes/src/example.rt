// A worked example: three calls that are not recorded, and what is printed of the machine.
use super::line::Line;
use super::printed::put_front;
use super::start;
use calls::Report;
use machine::{Machine, Settings};
use memory::Writes;
use registers::Set;
use scenery::{BYTES, CODE, interrupt_of, put_byte, put_decimal, put_view, put_word, word_at};
use std::io;

type Memory = [u8; BYTES];

const OUT: usize = 61;

fn settings(line: &Line) -> Settings {
    Settings::new(0xFFFF, scenery::flags_of(line[4]))
}

// One call by its letter; there is none for `-`. A refused one leaves the machine.
// The letters are the line's: an enum would be read from them and matched at once.
fn act(mem: &mut Memory, before: Report, settings: Settings, letter: u8) -> Report {
    let machine = before.machine;
    match letter {
        b'S' => calls::step(mem, machine, settings),
        b'I' | b'F' | b'N' => calls::interrupt(mem, machine, settings, interrupt_of(letter)),
        b'R' => calls::reset(mem, machine, settings),
        _ => before,
    }
}

fn run(mem: &mut Memory, line: &Line) -> Report {
    start::fill(mem, line, 38);
    let settings = settings(line);
    let before = Report {
        devices: Writes::none(),
        machine: start::machine(line, 6, CODE),
        reads: 0,
        writes: 0,
        answer: Ok(()),
    };
    let first = act(mem, before, settings, line[65]);
    let second = act(mem, first, settings, line[66]);
    act(mem, second, settings, line[67])
}

fn put_registers(out: &mut [u8], regs: Set) {
    put_byte(out, 7, regs.cc.get_as_byte());
    put_byte(out, 10, regs.a);
    put_byte(out, 13, regs.b);
    put_byte(out, 16, regs.dp);
    put_word(out, 19, regs.x);
    put_word(out, 24, regs.y);
    put_word(out, 29, regs.u);
    put_word(out, 34, regs.s);
    put_word(out, 39, regs.pc);
}

// Not shared: the programs print other fields of a machine, at other distances.
fn put_machine(out: &mut [u8], machine: Machine) {
    put_registers(out, machine.regs);
    put_decimal(out, 47, machine.cycles);
    put_decimal(out, 49, machine.instructions);
    put_decimal(out, 60, machine::wait_byte(machine.wait) as u64);
}

// Its line, over a form of zeros.
fn printed(mem: &Memory, line: &Line, report: Report) -> [u8; OUT] {
    let mut out = [b'0'; OUT];
    text::put(
        &mut out,
        0,
        b"000 00 00 00 00 00 0000 0000 0000 0000 0000 000 0 00000000 0\n",
    );
    put_front(&mut out, line, report.answer);
    put_machine(&mut out, report.machine);
    put_view(&mut out, 50, mem, word_at(line, 69));
    out
}

// Runs one example in fresh memory, and writes its line.
pub fn answer(rt: &HostRuntime, line: &Line) -> io::Result<()> {
    let mut mem = [0u8; BYTES];
    let report = run(&mut mem, line);
    rt.write_all(&printed(&mem, line, report))
}
