// A scene of the journal: recorded calls, undos and drops on the lengths of memory and journal that the line says, and the newest record.
ghost use Rattle.std.specs.Prelude.{◌<◌, ◌≤◌};

use super::line::Line;
use super::printed::put_front;
use super::start;
use journal::{Outcome, Twin};
use machine::{ARMED, HEADER, Machine, Settings, WAIT};
use memory::Writes;
use registers::Flags;
use scenery::{
    BYTES, Undone, byte_of, interrupt_of, length_at, long_at, put_byte, put_bytes, put_decimal,
    put_devices, put_long, put_one, put_view, put_word, word_at,
};
use std::io;

const OUT: usize = 226;

// The longest record.
const RECORD: usize = 70;

fn settings(line: &Line) -> Settings {
    Settings::new(word_at(line, 41), Flags::Manual)
}

fn twin(line: &Line) -> Twin {
    let mut machine = start::machine(line, 4, word_at(line, 36));
    machine.cycles = 0x0102_0304_0506_0708;
    machine.instructions = 0x1112_1314_1516_1718;
    Twin {
        machine,
        records: long_at(line, 84) as usize,
        bytes: long_at(line, 101) as usize,
    }
}

fn started(line: &Line) -> Outcome {
    Outcome {
        devices: Writes::none(),
        twin: twin(line),
        reads: 0,
        writes: 0,
        answer: Ok(()),
    }
}

// Where the newest record begins, by the last of the bytes used.
fn newest_at(journal: &[u8], bytes: usize) -> usize
    requires { 0 < bytes }
    ensures { result ≤ bytes }
{
    let size = byte_of(journal, bytes - 1) as usize;
    if size > bytes {
        return 0;
    }
    bytes - size
}

// A byte of the newest record overwritten, or, by o and p, the oldest record's count.
fn damage(journal: &mut [u8], bytes: usize, letter: u8) {
    if bytes == 0 || bytes > BYTES {
        return;
    }
    let at = newest_at(journal, bytes);
    match letter {
        b'w' => put_one(journal, at + WAIT, 3),
        b'm' => put_one(journal, at + ARMED, 2),
        b'c' => put_one(journal, at + HEADER, 13),
        b'd' => put_one(journal, at + HEADER, 1),
        b'l' => put_one(journal, bytes - 1, 33),
        b'h' => put_one(journal, bytes - 1, 255),
        b'o' => put_one(journal, HEADER, 13),
        _ => put_one(journal, HEADER, 12),
    }
}

// How many records an operation drops: a digit's, all that are held, or the largest number.
fn dropped(letter: u8, records: usize) -> usize {
    match letter {
        b'0'..=b'9' => (letter - b'0') as usize,
        b'a' => records,
        _ => usize::MAX,
    }
}

// One operation by its letter; there is none for `-`.
// The letters are the line's, here and above: an enum would be read from them and matched at once.
fn act(
    mem: &mut [u8],
    journal: &mut [u8],
    before: Outcome,
    settings: Settings,
    letter: u8,
) -> Outcome {
    let twin = before.twin;
    match letter {
        b'S' => journal::step(mem, journal, twin, settings),
        b'I' | b'F' | b'N' => {
            journal::interrupt(mem, journal, twin, settings, interrupt_of(letter))
        }
        b'R' => journal::reset(mem, journal, twin, settings),
        b'U' => journal::undo(mem, journal, twin),
        b'0'..=b'9' | b'a' | b'x' => journal::drop(journal, twin, dropped(letter, twin.records)),
        b'-' => before,
        _ => {
            damage(journal, twin.bytes, letter);
            before
        }
    }
}

// The eight operations of the line, once.
fn turn(mem: &mut [u8], journal: &mut [u8], before: Outcome, line: &Line) -> Outcome {
    let settings = settings(line);
    let mut outcome = before;
    for letter in &line[118..126] {
        outcome = act(mem, journal, outcome, settings, *letter);
    }
    outcome
}

fn turns(mem: &mut [u8], journal: &mut [u8], line: &Line) -> Outcome {
    let mut outcome = started(line);
    for _ in 0..word_at(line, 127) {
        outcome = turn(mem, journal, outcome, line);
    }
    outcome
}

// Undo until it is refused, if the line ends in U.
fn end(mem: &mut [u8], journal: &[u8], last: Outcome, line: &Line) -> Undone {
    if line[132] == b'U' {
        scenery::undo_all(mem, journal, last.twin)
    } else {
        Undone { last, undos: 0 }
    }
}

// Not shared: the programs print other fields of a machine, at other distances.
fn put_machine(out: &mut [u8], machine: Machine) {
    let regs = machine.regs;
    put_word(out, 46, regs.pc);
    put_byte(out, 51, regs.cc.get_as_byte());
    put_decimal(out, 55, machine::wait_byte(machine.wait) as u64);
}

// Four bytes of the journal behind those in use; 00 past its end.
fn put_behind(out: &mut [u8], journal: &[u8], bytes: usize) {
    if bytes < journal.len() {
        put_view(out, 76, &journal[bytes..], 0);
    }
}

// The newest record; where the part handed back is empty, and past its end, hyphens stay.
fn put_record(out: &mut [u8], journal: &[u8], records: usize, bytes: usize) {
    let record = journal::newest(journal, records, bytes);
    put_bytes(out, 85, &record[..record.len().min(RECORD)]);
}

fn put_outcome(out: &mut [u8], line: &Line, ended: Undone) {
    let outcome = ended.last;
    let twin = outcome.twin;
    put_front(out, line, outcome.answer);
    put_long(out, 7, twin.records as u64);
    put_long(out, 24, twin.bytes as u64);
    put_decimal(out, 45, ended.undos);
    put_machine(out, twin.machine);
    put_devices(out, 67, outcome.devices);
}

// Its line, over a form of zeros and hyphens.
fn printed(mem: &[u8], journal: &[u8], line: &Line, ended: Undone) -> [u8; OUT] {
    let mut out = [b'-'; OUT];
    let twin = ended.last.twin;
    text::put(
        &mut out,
        0,
        b"000 00 0000000000000000 0000000000000000 0000 0000 00 0 00000000 00 0000 00 00000000 ",
    );
    text::put(&mut out, OUT - 1, b"\n");
    put_outcome(&mut out, line, ended);
    put_view(&mut out, 56, mem, word_at(line, 59));
    put_behind(&mut out, journal, twin.bytes);
    put_record(&mut out, journal, twin.records, twin.bytes);
    out
}

fn play(rt: &HostRuntime, mem: &mut [u8], journal: &mut [u8], line: &Line) -> io::Result<()> {
    start::fill(mem, line, 46);
    let outcome = turns(mem, journal, line);
    let ended = end(mem, journal, outcome, line);
    rt.write_all(&printed(mem, journal, line, ended))
}

// Plays one scene in fresh memory with a fresh journal, and writes its line.
pub fn answer(rt: &HostRuntime, line: &Line) -> io::Result<()> {
    let mut mem = [0u8; BYTES];
    let mut journal = [0u8; BYTES];
    let bytes = length_at(line, 73);
    let room = word_at(line, 79) as usize;
    play(rt, &mut mem[..bytes], &mut journal[..room], line)
}
