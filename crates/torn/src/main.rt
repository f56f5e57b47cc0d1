// Salvages the files of standard input, and prints for each the answer, the bytes and numbers written and whether S9 was added, then the
// text and the list (README.md has the form of both).
#![tactic(auto)]

use answers::Refusal;
use salvage::Salvaged;
use scenery::word_at;
use std::io;

// The longest file that is taken.
const INPUT: usize = 0x4000;

// The outputs and lists are this long at the most.
const ROOM: usize = 0x4400;

// The number of the answer; the three counts are 0 where the salvage is refused.
fn print_result(rt: &HostRuntime, salvaged: Result<Salvaged, Refusal>) -> io::Result<()> {
    match salvaged {
        Ok(s) => println!(rt; "0 {} {} {} ", s.bytes, s.numbers, s.added as usize),
        Err(refusal) => println!(rt; "{} 0 0 0 ", refusal.number()),
    }
}

// The file's text is at the front of an output of n dots, its numbers at the front of a list of m dots; all of both is printed.
fn salvage_into(rt: &HostRuntime, file: &[u8], out: &mut [u8], list: &mut [u8]) -> io::Result<()> {
    print_result(rt, salvage::salvage(file, out, list))?;
    rt.write_all(out)?;
    rt.write_all(b"\n")?;
    rt.write_all(list)?;
    rt.write_all(b"\n")
}

// Nothing is printed where an output or a list has no room for so many dots.
fn answer(rt: &HostRuntime, file: &[u8], n: usize, m: usize) -> io::Result<()> {
    let mut out = [b'.'; ROOM];
    let mut list = [b'.'; ROOM];
    let (Some(out), Some(list)) = (out.get_mut(..n), list.get_mut(..m)) else {
        return Ok(());
    };
    salvage_into(rt, file, out, list)
}

// Reads so many bytes, or as many as there are, into the front of a buffer, and hands that front back. Where they have no room, none is read.
fn read_front<'a>(rt: &HostRuntime, buf: &'a mut [u8], n: usize) -> io::Result<&'a [u8]> {
    let room = if n <= buf.len() { n } else { 0 };
    let got = streams::read_full(&mut rt.stdin(), &mut buf[..room])?;
    Ok(&buf[..got])
}

// Reads one file, answers it, and says whether there may be more. Its head is three numbers of four digits, the file's length and those
// of output and list, each with a blank or a line feed after it.
fn answer_next(rt: &HostRuntime) -> io::Result<bool> {
    let mut head = [0u8; 15];
    if streams::read_full(&mut rt.stdin(), &mut head)? < 15 {
        return Ok(false);
    }
    let size = word_at(&head, 0) as usize;
    let n = word_at(&head, 5) as usize;
    let m = word_at(&head, 10) as usize;
    let mut input = [0u8; INPUT];
    let file = read_front(rt, &mut input, size)?;
    answer(rt, file, n, m)?;
    Ok(true)
}

// A proved loop has to end, and nothing says that the input does: there are more turns than any run uses up.
fn main(rt: HostRuntime) -> io::Result<()> {
    for _ in 0..u64::MAX {
        if !answer_next(&rt)? {
            break;
        }
    }
    Ok(())
}
