// One scene: memory and journal of the lengths that the line says, one run or two, and undos.
ghost use Rattle.std.specs.Prelude.{◌≤◌};

use super::line::Line;
use super::printed::Shown;
use super::{line, printed};
use journal::Twin;
use scenery::{BYTES, CODE, fill, length_at, long_at, undo_all, word_at};
use std::io;

fn start(line: &Line) -> Twin {
    Twin {
        machine: line::machine(line),
        records: long_at(line, 108) as usize,
        bytes: long_at(line, 125) as usize,
    }
}

// How many runs a scene has: one, where its line ends in 1.
fn count_of(line: &Line) -> usize
    ensures { result ≤ 2 }
{
    if line[188] == b'1' { 1 } else { 2 }
}

// The first run of the line, or the second, and its line.
fn run_one(
    rt: &HostRuntime,
    mem: &mut [u8],
    journal: &mut [u8],
    line: &Line,
    twin: Twin,
    i: usize,
) -> io::Result<Twin>
    requires { i ≤ 1 }
{
    let allowance = long_at(line, 142 + 23 * i);
    let stop = line::stop_at(line, 159 + 23 * i);
    let ran = runs::run(mem, journal, twin, line::settings(line), allowance, stop);
    printed::show(rt, mem, journal, line, Shown::from(ran))?;
    Ok(ran.twin)
}

// All are made at one call site.
fn run_all(rt: &HostRuntime, mem: &mut [u8], journal: &mut [u8], line: &Line) -> io::Result<Twin> {
    let mut twin = start(line);
    let count = count_of(line);
    for i in 0..count {
        twin = run_one(rt, mem, journal, line, twin, i)?;
    }
    Ok(twin)
}

// The undos, unless the line ends in 1 or 2.
fn end(
    rt: &HostRuntime,
    mem: &mut [u8],
    journal: &[u8],
    line: &Line,
    twin: Twin,
) -> io::Result<()> {
    if matches!(line[188], b'1' | b'2') {
        return Ok(());
    }
    let undone = undo_all(mem, journal, twin);
    printed::show(rt, mem, journal, line, Shown::from(undone))
}

fn play_in(rt: &HostRuntime, mem: &mut [u8], journal: &mut [u8], line: &Line) -> io::Result<()> {
    fill(mem, CODE, line, 50, 16);
    fill(mem, word_at(line, 83), line, 88, 4);
    let twin = run_all(rt, mem, journal, line)?;
    end(rt, mem, journal, line, twin)
}

// Plays a scene in fresh memory with a fresh journal.
pub fn play(rt: &HostRuntime, line: &Line) -> io::Result<()> {
    let mut mem = [0u8; BYTES];
    let mut journal = [0u8; BYTES];
    let bytes = length_at(line, 97);
    let room = word_at(line, 103) as usize;
    play_in(rt, &mut mem[..bytes], &mut journal[..room], line)
}
