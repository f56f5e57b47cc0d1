// Plays the scenes of standard input: a run with an allowance, or two of them, and undos; prints how each ends (README.md has the lines and
// the rules). `tools/model/allowances.py` gives it random ones.
#![tactic(auto)]

mod line;
mod printed;
mod scene;

use line::LINE;
use std::io;

// Reads one scene, plays it, and says whether there may be more.
fn play_next(rt: &HostRuntime) -> io::Result<bool> {
    let mut line = [0u8; LINE];
    if streams::read_full(&mut rt.stdin(), &mut line)? < LINE {
        return Ok(false);
    }
    scene::play(rt, &line)?;
    Ok(true)
}

// A proved loop has to end, and nothing says that the input does: there are more turns than any run uses up.
fn main(rt: HostRuntime) -> io::Result<()> {
    for _ in 0..u64::MAX {
        if !play_next(&rt)? {
            break;
        }
    }
    Ok(())
}
