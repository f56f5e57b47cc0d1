// What is printed.
use answers::Refusal;
use std::io;

// The front of a text, if it is as long as that.
pub fn print_first(rt: &HostRuntime, text: &[u8], n: usize) -> io::Result<()> {
    match text.get(..n) {
        Some(part) => rt.write_all(part),
        None => Ok(()),
    }
}

pub fn print_count(rt: &HostRuntime, n: usize) -> io::Result<()> {
    println!(rt; "{n}")
}

fn print_answer(rt: &HostRuntime, number: u8, start: u16) -> io::Result<()> {
    println!(rt; "{number} {start:04x}")
}

// The number of the answer, and the start, 0 where the file is refused.
pub fn print_loaded(rt: &HostRuntime, loaded: Result<u16, Refusal>) -> io::Result<()> {
    match loaded {
        Ok(start) => print_answer(rt, 0, start),
        Err(refusal) => print_answer(rt, refusal.number(), 0),
    }
}

// The number of the answer to a memory that is written, and no start.
pub fn print_written(rt: &HostRuntime, written: Result<usize, Refusal>) -> io::Result<()> {
    print_answer(rt, answers::number(&written), 0)
}
