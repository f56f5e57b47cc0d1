// Answers the case lines of standard input with this repository's functions (tools/compare/README.md has the lines and the table).
#![tactic(auto)]

mod addresses;
mod arithmetic;
mod case;
mod codes;
mod digest;
mod frames;
mod lines;
mod machine_memory;
mod operands;
mod register_set;
mod served;
mod values;

ghost use Rattle.std.specs.Prelude.{◌≤◌, length};
ghost use Rattle.streams.specs.Counts.{IsPrefixLen};

use case::{Case, Failure, Reply};
use lines::{BLOCK, LINE, ROOM};
use machine_memory::{BYTES, Memory};
use std::io;

// A function has the number that the table of the lines gives it. The number stands once, in the arm that calls the function: an enum
// between the two would name each function twice more, and no arm would be shorter.
fn answer(case: Case, mem: &mut Memory) -> Reply {
    match case.function {
        0x00..=0x10 => values::answer(case),
        0x20..=0x26 => codes::answer(case),
        0x27..=0x39 => arithmetic::answer(case),
        0x3A..=0x3D => register_set::answer(case),
        0x40..=0x42 => machine_memory::answer(case, mem),
        0x43 => addresses::answer(case, mem),
        0x44 => frames::push(case, mem),
        0x45 => frames::frame(case, mem),
        0x46 => served::interrupt(case, mem),
        0x47 => served::reset(case, mem),
        _ => Err(Failure::BadCase),
    }
}

fn reply(line: &[u8], mem: &mut Memory) -> Reply {
    answer(Case::try_from(line)?, mem)
}

// Answers a block, and returns how many bytes the answers take. What is left after the last whole line is one bad case.
fn answer_block(block: &[u8], mem: &mut Memory, out: &mut [u8; ROOM]) -> usize
    requires { length block.now ≤ 23552 }
    ensures { IsPrefixLen result out.new }
{
    let mut end = 0;
    for line in block.chunks(LINE) {
        end = lines::put(out, end, reply(line, mem));
    }
    end
}

// Reads a block of lines, writes their answers, and says whether there may be more.
fn answer_some(rt: &HostRuntime, mem: &mut Memory) -> io::Result<bool> {
    let mut lines = [0u8; BLOCK];
    let n = streams::read_full(&mut rt.stdin(), &mut lines)?;
    let mut out = [0u8; ROOM];
    let end = answer_block(&lines[..n], mem, &mut out);
    rt.write_all(&out[..end])?;
    Ok(n == BLOCK)
}

// A proved loop has to end, and nothing says that the input does: there are more turns than any run uses up.
fn main(rt: HostRuntime) -> io::Result<()> {
    let mut mem = [0u8; BYTES];
    machine_memory::fill(&mut mem);
    for _ in 0..u64::MAX {
        if !answer_some(&rt, &mut mem)? {
            break;
        }
    }
    Ok(())
}
