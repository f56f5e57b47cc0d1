// Plays the lines of standard input, worked examples of the processor and scenes of the journal, and prints how each ends (README.md has
// the lines and the rules).
#![tactic(auto)]

mod example;
mod line;
mod printed;
mod scene;
mod start;

use line::{EXAMPLE, LINE};
use std::io;

// The rest of a line that is no example is read.
fn answer_scene(rt: &HostRuntime, front: &[u8; EXAMPLE]) -> io::Result<()> {
    let mut rest = [0u8; LINE - EXAMPLE];
    let _ = streams::read_full(&mut rt.stdin(), &mut rest)?;
    let mut line = [0u8; LINE];
    text::put(&mut line, 0, front);
    text::put(&mut line, EXAMPLE, &rest);
    if line::is_scene(&line) {
        scene::answer(rt, &line)
    } else {
        rt.write_all(b"bad line\n")
    }
}

// Reads one line, answers it, and says whether there may be more.
fn answer_next(rt: &HostRuntime) -> io::Result<bool> {
    let mut front = [0u8; EXAMPLE];
    if streams::read_full(&mut rt.stdin(), &mut front)? == 0 {
        return Ok(false);
    }
    let mut line = [0u8; LINE];
    text::put(&mut line, 0, &front);
    if line::is_example(&line) {
        example::answer(rt, &line)?;
    } else {
        answer_scene(rt, &front)?;
    }
    Ok(true)
}

// A proved loop has to end, and nothing says that the input does: there are more turns than any run uses up.
fn main(rt: HostRuntime) -> io::Result<()> {
    for _ in 0..u64::MAX {
        if !answer_next(&rt)? {
            break;
        }
    }
    Ok(())
}
