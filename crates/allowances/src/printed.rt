// What is printed of a run, and of the undos after it.
// Numbers are laid at fixed places of a form of bytes, over its zeros, which Display does not do.
use super::line::Line;
use journal::Twin;
use machine::Machine;
use memory::Writes;
use runs::RunOutcome;
use scenery::{
    Undone, put_byte, put_decimal, put_devices, put_long, put_sum, put_view, put_word, word_at,
};
use std::io;

const OUT: usize = 125;

// What a line is made of: the reason's digit or U, the number beside it, the device writes, the twin and two counts.
// Letter and number, and no enum or Result: they are what is printed, the number 0 where nothing was refused.
#[derive(Clone, Copy)]
pub struct Shown {
    pub letter: u8,
    pub number: u8,
    pub devices: Writes,
    pub twin: Twin,
    pub reads: u64,
    pub writes: u64,
}

impl From<RunOutcome> for Shown {
    fn from(ran: RunOutcome) -> Shown {
        Shown {
            letter: b'0' + ran.reason.number() % 10,
            number: ran.number.wrapping_add(answers::number(&ran.answer)),
            devices: ran.devices,
            twin: ran.twin,
            reads: ran.reads,
            writes: ran.writes,
        }
    }
}

// The number of the undo that was refused, and how many were accepted in the place of the bytes read.
impl From<Undone> for Shown {
    fn from(undone: Undone) -> Shown {
        let last = undone.last;
        Shown {
            letter: b'U',
            number: answers::number(&last.answer),
            devices: last.devices,
            twin: last.twin,
            reads: undone.undos,
            writes: 0,
        }
    }
}

// Not shared: the programs print other fields of a machine, at other distances.
fn put_machine(out: &mut [u8], machine: Machine) {
    let regs = machine.regs;
    put_word(out, 20, regs.pc);
    put_byte(out, 25, regs.cc.get_as_byte());
    put_decimal(out, 29, machine::wait_byte(machine.wait) as u64);
    put_decimal(out, 40, machine.cycles);
    put_decimal(out, 51, machine.instructions);
}

fn put_counts(out: &mut [u8], twin: Twin, reads: u64, writes: u64) {
    put_long(out, 52, twin.records as u64);
    put_long(out, 69, twin.bytes as u64);
    put_decimal(out, 91, reads);
    put_decimal(out, 97, writes);
}

fn put_shown(out: &mut [u8], shown: Shown) {
    let twin = shown.twin;
    text::put(out, 4, &[shown.letter]);
    put_decimal(out, 8, shown.number as u64);
    put_devices(out, 11, shown.devices);
    put_machine(out, twin.machine);
    put_counts(out, twin, shown.reads, shown.writes);
}

// The line, over a form of zeros; the sums of memory and journal where the scene ends in D.
pub fn show(
    rt: &HostRuntime,
    mem: &[u8],
    journal: &[u8],
    line: &Line,
    shown: Shown,
) -> io::Result<()> {
    let mut out = [b'0'; OUT];
    text::put(
        &mut out,
        0,
        b"000 0 00 00 0000 00 0000 00 0 0000000000 0000000000 0000000000000000 0000000000000000 00000 00000 00000000 00000000 00000000\n",
    );
    text::put(&mut out, 0, &line[..3]);
    put_shown(&mut out, shown);
    put_view(&mut out, 98, mem, word_at(line, 83));
    if line[188] == b'D' {
        put_sum(&mut out, 107, mem);
        put_sum(&mut out, 116, journal);
    }
    rt.write_all(&out)
}
