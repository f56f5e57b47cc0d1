// The boot program: reads a head and an S-record file from standard input, loads the file, resets the machine, makes so many steps, and
// prints a line for the reset and for each step. What it prints is `boot_printed` of what it read (`player::boot`).
#![tactic(auto)]

ghost use Rattle.std.specs.Prelude.{◌*◌, ◌≤◌};

use std::io;

// One byte more than the longest input, a head of five bytes and 1 MiB of text, so that a longer one is seen.
const INPUT: usize = 0x10_0006;

// 33 bytes for each of at most 65,536 lines: no text is longer (`boot-fits`).
const OUT: usize = 33 * 65536;

// Writes the text, and returns its length, which is at most that of the buffer (`boot-fits`).
// Each program has such a function: it makes of its own call's promise the bound by which `main` slices.
fn boot_into(input: &[u8], out: &mut [u8]) -> usize
    ensures { result ≤ 33 * 65536 }
{
    player::boot(input, out)
}

fn main(rt: HostRuntime) -> io::Result<()> {
    let mut input = streams::zeros::<INPUT>();
    let n = streams::read_full(&mut rt.stdin(), &mut input)?;
    let mut out = streams::zeros::<OUT>();
    let used = boot_into(&input[..n], &mut out);
    rt.write_all(&out[..used])
}
