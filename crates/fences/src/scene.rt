// One scene: a fresh memory and journal, and up to eight calls.
use super::calling::Called;
use super::line::{Line, OPERATIONS};
use super::{calling, line, printed};
use journal::Twin;
use scenery::{BYTES, CODE, fill, word_at};
use std::io;

// A call, and its line.
fn act(
    rt: &HostRuntime,
    mem: &mut [u8],
    journal: &mut [u8],
    line: &Line,
    twin: Twin,
    second: bool,
    letter: u8,
) -> io::Result<Twin> {
    let settings = line::settings(line, second);
    let called: Called = calling::call(mem, journal, line, twin, settings, letter);
    printed::show(rt, mem, journal, line, letter, called)?;
    Ok(called.twin)
}

// `p` is no call: from there on the second profile holds. There is nothing to do for `-`.
fn turn(
    rt: &HostRuntime,
    mem: &mut [u8],
    journal: &mut [u8],
    line: &Line,
    twin: Twin,
    second: bool,
    letter: u8,
) -> io::Result<Twin> {
    if letter == b'p' || letter == b'-' {
        return Ok(twin);
    }
    act(rt, mem, journal, line, twin, second, letter)
}

fn act_all(rt: &HostRuntime, mem: &mut [u8], journal: &mut [u8], line: &Line) -> io::Result<()> {
    let mut twin = line::twin(line);
    let mut second = false;
    for letter in &line[OPERATIONS..OPERATIONS + 8] {
        second = second || *letter == b'p';
        twin = turn(rt, mem, journal, line, twin, second, *letter)?;
    }
    Ok(())
}

fn play_in(rt: &HostRuntime, mem: &mut [u8], journal: &mut [u8], line: &Line) -> io::Result<()> {
    fill(mem, CODE, line, 52, 12);
    fill(mem, word_at(line, 77), line, 82, 4);
    act_all(rt, mem, journal, line)
}

// Plays a scene in fresh memory with a fresh journal.
pub fn play(rt: &HostRuntime, line: &Line) -> io::Result<()> {
    let mut mem = [0u8; BYTES];
    let mut journal = [0u8; BYTES];
    let room = word_at(line, 91) as usize;
    play_in(rt, &mut mem, &mut journal[..room], line)
}
