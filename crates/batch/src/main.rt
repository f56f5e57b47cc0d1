// Answers the inputs of standard input, each by its letter: a run file is played, an S-record file is booted, or read and written again
// (README.md has the form of both).
#![tactic(auto)]

mod limits;
mod printed;

use printed::{print_first, print_loaded};
use std::io;

const BYTES: usize = 0x10000;

// The longest input that is taken.
const INPUT: usize = 0x40000;

// The longest text that is played: 32,760 lines of at most 17 bytes.
const LINES: usize = 0x8_8000;

// The longest text of a memory: 2,048 rows of 75 characters, and the S9 line.
const RECORDS: usize = 153611;

// An array and no slice: with one the proofs of `play` and `boot`, which see its bytes, did not close.
fn print_lines(rt: &HostRuntime, text: &[u8; LINES], n: usize) -> io::Result<()> {
    printed::print_count(rt, n)?;
    print_first(rt, text, n)
}

fn play(rt: &HostRuntime, file: &[u8]) -> io::Result<()> {
    let mut out = [0u8; LINES];
    let n = player::play(file, &mut out);
    print_lines(rt, &out, n)
}

fn boot(rt: &HostRuntime, input: &[u8]) -> io::Result<()> {
    let mut out = [0u8; LINES];
    let n = player::boot(input, &mut out);
    print_lines(rt, &out, n)
}

// A memory of this length and an output of this one are never refused.
fn print_memory(rt: &HostRuntime, mem: &[u8; BYTES], start: u16) -> io::Result<()> {
    let mut out = [0u8; RECORDS];
    match srecord::write(mem, start, &mut out) {
        Ok(count) => print_first(rt, &out, count),
        Err(_) => Ok(()),
    }
}

// The file is read over a zeroed memory.
fn load(rt: &HostRuntime, file: &[u8]) -> io::Result<()> {
    let mut mem = [0u8; BYTES];
    let loaded = srecord::read(&mut mem, file);
    print_loaded(rt, loaded)?;
    print_memory(rt, &mem, loaded.unwrap_or(0))
}

// The letters are the input's: an enum would be read from them and matched at once.
fn answer(rt: &HostRuntime, kind: u8, input: &[u8]) -> io::Result<()> {
    match kind {
        b'R' => play(rt, input),
        b'S' => boot(rt, input),
        b'I' => load(rt, input),
        _ => limits::answer(rt),
    }
}

// An input's length: six hexadecimal digits after its kind.
fn length_of(head: &[u8; 8]) -> usize {
    let high = scenery::byte_at(head, 1) as usize;
    high * 0x1_0000 + scenery::word_at(head, 3) as usize
}

// Reads so many bytes, or as many as there are, into the front of a buffer, and hands that front back. Where they have no room, none is read.
fn read_front<'a>(rt: &HostRuntime, buf: &'a mut [u8], n: usize) -> io::Result<&'a [u8]> {
    let room = if n <= buf.len() { n } else { 0 };
    let got = streams::read_full(&mut rt.stdin(), &mut buf[..room])?;
    Ok(&buf[..got])
}

// Reads one input, answers it, and says whether there may be more.
fn answer_next(rt: &HostRuntime) -> io::Result<bool> {
    let mut head = [0u8; 8];
    if streams::read_full(&mut rt.stdin(), &mut head)? < 8 {
        return Ok(false);
    }
    let mut input = [0u8; INPUT];
    let part = read_front(rt, &mut input, length_of(&head))?;
    answer(rt, head[0], part)?;
    Ok(true)
}

// A proved loop has to end, and nothing says that the input does: there are more turns than any run uses up.
fn main(rt: HostRuntime) -> io::Result<()> {
    for _ in 0..u64::MAX {
        if !answer_next(&rt)? {
            break;
        }
    }
    Ok(())
}
