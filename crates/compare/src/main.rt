// The compare program: reads two dumps from standard input, one after the other, and prints what differs between them, a line for each
// difference. What it prints is `told` of what it read (`dump::tell`).
#![tactic(auto)]

ghost use Rattle.std.specs.Prelude.{◌*◌, ◌≤◌};

use std::io;

// One byte more than two dumps, so that a longer input is seen.
const INPUT: usize = 131137;

// 48 bytes for each of at most 32,781 lines: no text is longer (`told-fits`).
const OUT: usize = 48 * 32781;

// Writes the text, and returns its length, which is at most that of the buffer (`told-fits`).
// Each program has such a function: it makes of its own call's promise the bound by which `main` slices.
fn tell_into(input: &[u8], out: &mut [u8]) -> usize
    ensures { result ≤ 48 * 32781 }
{
    dump::tell(input, out)
}

fn main(rt: HostRuntime) -> io::Result<()> {
    let mut input = streams::zeros::<INPUT>();
    let n = streams::read_full(&mut rt.stdin(), &mut input)?;
    let mut out = streams::zeros::<OUT>();
    let used = tell_into(&input[..n], &mut out);
    rt.write_all(&out[..used])
}
