// What a person gets of a salvage: the mended text, and a report of the lines that are dropped and of the S9 that is added.
// Output and place stand apart, as in `text::put`.
ghost use Rattle.std.specs.Prelude.{◌≡◌, not, ◌*◌, ◌≤◌, length};
ghost use Rattle.std.proofs.lemmas.List.Edits.{sets};
ghost use Rattle.text.specs.Lines.{alone};
ghost use Rattle.answers.specs.Numbers.{number_of};
ghost use Rattle.salvage.specs.Printed.{longest, dropped_line, added_if, report_text, no_numbers, printed_of, output_printed, error_text, mend_answer};

use super::mended::salvage;
use super::{Cursor, next};
use answers::Refusal;

// How long the mended text and the report are.
#[derive(Clone, Copy)]
pub struct Printed {
    pub text: usize,
    pub report: usize,
}

// The longest file, 1 MiB, as the boot program's.
const LONGEST: usize = 0x10_0000;

// The most lines that are dropped.
const NUMBERS: usize = 0x8000;

// A function of its own, so that the proof of its caller need not open the array.
fn no_numbers() -> [u8; 8 * NUMBERS]
    ensures { result ≡ no_numbers }
{
    [0; 8 * NUMBERS]
}

// Writes the line of a dropped line at a place, and returns its length.
fn put_dropped(out: &mut [u8], at: usize, number: usize, refusal: Refusal) -> usize
    requires { at ≤ 50 * longest }
    ensures { (result ≡ length (dropped_line number refusal)) × (out.new ≡ sets out.old at (dropped_line number refusal)) }
{
    text::put(out, at, b"dropped ");
    let digits = text::decimal(number as u64).put(out, at + 8);
    let after = at + 8 + digits;
    text::put(out, after, b" ");
    digits + 9 + text::alone(refusal.number()).put(out, after + 1)
}

// Writes the line of the S9 that is added, none after a good S9, and returns its length.
fn put_added(out: &mut [u8], at: usize, ended: bool) -> usize
    ensures { (result ≡ length (added_if (not ended))) × (out.new ≡ sets out.old at (added_if (not ended))) }
{
    if ended {
        return 0;
    }
    text::put(out, at, b"added S9030000FC\n");
    17
}

// Writes the report of a file that is not too long, and returns its length.
// The walk of `count` once more: here its turns are told.
fn put_report(file: &[u8], out: &mut [u8]) -> usize
    requires { length file.now ≤ longest }
    ensures { (result ≡ length (report_text file.now)) × (out.new ≡ sets out.old 0 (report_text file.now)) }
{
    let mut at = Cursor::default();
    let mut used = 0;
    while at.from < file.len() {
        let turned = next(file, at);
        if let Some(refusal) = turned.fate {
            used += put_dropped(out, used, turned.next.lines, refusal);
        }
        at = turned.next;
    }
    used + put_added(out, used, at.ended)
}

// Writes the number of a refusal in place of a report, and returns the length of its line.
// Each crate that prints has this line for itself: `text` knows no refusals.
fn put_refusal(out: &mut [u8], refusal: Refusal) -> usize
    ensures { (result ≡ length (alone (number_of refusal))) × (out.new ≡ sets out.old 0 (alone (number_of refusal))) }
{
    text::alone(refusal.number()).put(out, 0)
}

// Writes the mended text at the front of `out`, and the report at the front of `report`.
pub fn mend(file: &[u8], out: &mut [u8], report: &mut [u8]) -> Printed
    ensures { (result ≡ printed_of file.now out.old) × ((out.new ≡ output_printed file.now out.old) × (report.new ≡ sets report.old 0 (error_text (mend_answer file.now out.old) file.now))) }
{
    if LONGEST < file.len() {
        return Printed {
            text: 0,
            report: put_refusal(report, Refusal::Malformed),
        };
    }
    let mut list = no_numbers();
    match salvage(file, out, &mut list) {
        Ok(salvaged) => Printed {
            text: salvaged.bytes,
            report: put_report(file, report),
        },
        // The refusal ends here: its number is printed.
        Err(refusal) => Printed {
            text: 0,
            report: put_refusal(report, refusal),
        },
    }
}
