// The mended text and the numbers of the dropped lines: counted first, so that an output or a list that is too short stays unchanged.
ghost use Rattle.std.specs.Prelude.{◌≡◌, not, ◌≤◌, length};
ghost use Rattle.std.proofs.lemmas.List.Edits.{sets};
ghost use Rattle.salvage.specs.Mended.{end_if, kept_of, number_bytes, tally_of, salvaged_of, output_mended, list_filled};

use super::{Cursor, next};
use answers::Refusal;

// How many bytes of the output and how many numbers of the list are written, and whether S9 was added.
#[derive(Clone, Copy)]
pub struct Salvaged {
    pub bytes: usize,
    pub numbers: usize,
    pub added: bool,
}

// Of all lines: the bytes that are kept, the lines that are dropped, and whether one is a good S9.
#[derive(Clone, Copy)]
pub struct Tally {
    pub bytes: usize,
    pub numbers: usize,
    pub ended: bool,
}

fn count(file: &[u8]) -> Tally
    ensures { result ≡ tally_of file.now }
{
    // The walk goes from one line's end to the next, so that no range counts it; in `put_lines` and `put_report` too.
    let mut at = Cursor::default();
    let mut bytes = 0;
    let mut numbers = 0;
    while at.from < file.len() {
        let turned = next(file, at);
        match turned.fate {
            None => bytes += turned.next.from - at.from,
            Some(_) => numbers += 1,
        }
        at = turned.next;
    }
    Tally {
        bytes,
        numbers,
        ended: at.ended,
    }
}

// Writes the lines that are kept, and the numbers of the others.
// The walk of `count` a second time: nothing is written before the lengths are known.
fn put_lines(file: &[u8], out: &mut [u8], list: &mut [u8])
    requires { length (number_bytes file.now) ≤ length list.old }
    ensures { (out.new ≡ sets out.old 0 (kept_of file.now)) × (list.new ≡ sets list.old 0 (number_bytes file.now)) }
{
    let mut at = Cursor::default();
    let mut bytes = 0;
    let mut listed = 0;
    while at.from < file.len() {
        let turned = next(file, at);
        let after = turned.next;
        match turned.fate {
            None => {
                text::put(out, bytes, &file[at.from..after.from]);
                bytes += after.from - at.from;
            }
            Some(_) => {
                text::put(list, listed, &machine::counter_of(after.lines as u64));
                listed += 8;
            }
        }
        at = after;
    }
}

// How long the S9 line is that is added, and the line: none after a good S9.
fn end_length(ended: bool) -> usize
    ensures { result ≡ length (end_if (not ended)) }
{
    if ended { 0 } else { 11 }
}

// Beside `put_added`, the same of another text: one function of both would take the text, and be no shorter.
fn put_end(out: &mut [u8], at: usize, ended: bool)
    ensures { out.new ≡ sets out.old at (end_if (not ended)) }
{
    if !ended {
        text::put(out, at, b"S9030000FC\n");
    }
}

pub fn salvage(file: &[u8], out: &mut [u8], list: &mut [u8]) -> Result<Salvaged, Refusal>
    ensures { (result ≡ salvaged_of file.now out.old list.old) × ((out.new ≡ output_mended file.now out.old list.old) × (list.new ≡ list_filled file.now out.old list.old)) }
{
    let found = count(file);
    let more = end_length(found.ended);
    if out.len() < found.bytes {
        return Err(Refusal::SalvageShort);
    }
    if out.len() - found.bytes < more {
        return Err(Refusal::SalvageShort);
    }
    if list.len() / 8 < found.numbers {
        return Err(Refusal::SalvageShort);
    }
    put_lines(file, out, list);
    put_end(out, found.bytes, found.ended);
    Ok(Salvaged {
        bytes: found.bytes + more,
        numbers: found.numbers,
        added: !found.ended,
    })
}
