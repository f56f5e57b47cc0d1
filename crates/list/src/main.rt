// The listing program: reads a head and an S-record file from standard input, and prints a line for each instruction. What it prints is
// `list_printed` of what it read (`listing::list`).
#![tactic(auto)]

ghost use Rattle.std.specs.Prelude.{◌*◌, ◌≤◌};

use std::io;

// One byte more than the longest input, a head of five bytes and 1 MiB of text, so that a longer one is seen.
const INPUT: usize = 0x10_0006;

// 49 bytes for each of at most 65,535 lines: no text is longer, as the contract of `list` says.
const OUT: usize = 49 * 65536;

// Writes the text, and returns its length, which is at most that of the buffer.
// Each program has such a function: it makes of its own call's promise the bound by which `main` slices.
fn list_into(input: &[u8], out: &mut [u8]) -> usize
    ensures { result ≤ 49 * 65536 }
{
    listing::list(input, out)
}

fn main(rt: HostRuntime) -> io::Result<()> {
    let mut input = streams::zeros::<INPUT>();
    let n = streams::read_full(&mut rt.stdin(), &mut input)?;
    let mut out = streams::zeros::<OUT>();
    let used = list_into(&input[..n], &mut out);
    rt.write_all(&out[..used])
}
