// The mend program: reads a torn S-record file from standard input, and writes the mended text to standard output and the report to standard
// error. What it writes is `printed_of`, `output_printed` and `error_text` of what it read (`salvage::mend`).
#![tactic(auto)]

ghost use Rattle.std.specs.Prelude.{◌+◌, ◌*◌, ◌≤◌, length};

use salvage::Printed;
use std::io;

// One byte more than the longest file, 1 MiB, so that a longer one is seen.
const INPUT: usize = 0x10_0001;

// The longest mended text: the whole file, and the S9 line that is added.
const OUT: usize = 0x10_000B;

// 50 bytes for each of at most 32,768 lines, and 17 for the S9 that is added: no report is longer (`mend-fits`).
const REPORT: usize = 50 * 0x8000 + 17;

// Writes text and report, and returns their lengths, which are at most those of the buffers (`mend-fits`).
// Each program has such a function: it makes of its own call's promise the bound by which `main` slices.
fn mend_into(input: &[u8], out: &mut [u8], report: &mut [u8]) -> Printed
    ensures { (result.text ≤ length out.old) × (result.report ≤ 50 * 0x8000 + 17) }
{
    salvage::mend(input, out, report)
}

fn main(rt: HostRuntime) -> io::Result<()> {
    let mut input = streams::zeros::<INPUT>();
    let n = streams::read_full(&mut rt.stdin(), &mut input)?;
    let mut out = streams::zeros::<OUT>();
    let mut report = streams::zeros::<REPORT>();
    let printed = mend_into(&input[..n], &mut out, &mut report);
    rt.write_all(&out[..printed.text])?;
    rt.stderr().write_all(&report[..printed.report])
}
