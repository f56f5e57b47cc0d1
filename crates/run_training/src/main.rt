// The run program on the second engine (document 02, [13]): what it prints is `printed` of what it read, as the first's is
// (`player::play_second`).
// A program beside `run`, and no switch in it: standard input is the run file alone.
#![tactic(auto)]

ghost use Rattle.std.specs.Prelude.{◌*◌, ◌≤◌};

use std::io;

// One byte more than the longest run file, so that a longer one is seen.
const FILE: usize = 32769;

// 33 bytes for each of at most 32,768 operations: no text is longer (`play-fits`).
const OUT: usize = 33 * 32768;

// Writes the text, and returns its length, which is at most that of the buffer (`play-fits`).
// Each program has such a function: it makes of its own call's promise the bound by which `main` slices.
fn play_into(file: &[u8], out: &mut [u8]) -> usize
    ensures { result ≤ 33 * 32768 }
{
    player::play_second(file, out)
}

fn main(rt: HostRuntime) -> io::Result<()> {
    let mut file = streams::zeros::<FILE>();
    let n = streams::read_full(&mut rt.stdin(), &mut file)?;
    let mut out = streams::zeros::<OUT>();
    let used = play_into(&file[..n], &mut out);
    rt.write_all(&out[..used])
}
