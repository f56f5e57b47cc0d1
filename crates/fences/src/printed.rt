// What is printed of a call.
// Numbers are laid at fixed places of a form of bytes, over its zeros, which Display does not do.
use super::calling::Called;
use super::line::{Line, has_sums};
use machine::Machine;
use scenery::{put_byte, put_decimal, put_devices, put_sum, put_view, put_word, word_at};
use std::io;

const OUT: usize = 97;

// Not shared: the programs print other fields of a machine, at other distances.
fn put_machine(out: &mut [u8], machine: Machine) {
    let regs = machine.regs;
    put_word(out, 20, regs.pc);
    put_byte(out, 25, regs.cc.get_as_byte());
    put_word(out, 28, regs.s);
    put_decimal(out, 34, machine::wait_byte(machine.wait) as u64);
    put_decimal(out, 45, machine.cycles);
    put_decimal(out, 51, machine.instructions);
}

fn put_called(out: &mut [u8], called: Called) {
    let twin = called.twin;
    put_decimal(out, 8, called.number as u64);
    put_devices(out, 11, called.devices);
    put_machine(out, twin.machine);
    put_decimal(out, 60, twin.records as u64);
    put_decimal(out, 69, twin.bytes as u64);
}

// The line, over a form of zeros.
pub fn show(
    rt: &HostRuntime,
    mem: &[u8],
    journal: &[u8],
    line: &Line,
    letter: u8,
    called: Called,
) -> io::Result<()> {
    let mut out = [b'0'; OUT];
    text::put(
        &mut out,
        0,
        b"000 - 00 00 0000 00 0000 00 0000 0 0000000000 00000 00000000 00000000 00000000 00000000 00000000\n",
    );
    text::put(&mut out, 0, &line[..3]);
    text::put(&mut out, 4, &[letter]);
    put_called(&mut out, called);
    put_view(&mut out, 70, mem, word_at(line, 77));
    if has_sums(line) {
        put_sum(&mut out, 79, mem);
        put_sum(&mut out, 88, journal);
    }
    rt.write_all(&out)
}
