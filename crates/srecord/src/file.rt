// A file: its lines in order, all judged, then the data stored.
// A memory's length is a fact of the contracts and no type: any slice may be lent.
ghost use Rattle.std.specs.Prelude.{◌≡◌, ◌+◌, ◌≤◌, length, take, drop};
ghost use Rattle.std.proofs.lemmas.List.Edits.{sets};
ghost use Rattle.srecord.specs.Line.{line_bytes};
ghost use Rattle.srecord.specs.File.{line_end, meanings_of, judged, landed, loaded_of, memory_loaded};

use super::line::{Line, byte, line_of};
use answers::Refusal;

// Where the line that starts here ends: past its line feed, or at the end of the file.
pub fn line_end(file: &[u8], from: usize) -> usize
    ensures { result ≡ line_end file.now from }
{
    for i in from..file.len() {
        if file[i] == b'\n' {
            return i + 1;
        }
    }
    from.max(file.len())
}

// The answer to a file, before any byte of it is stored.
fn judge(file: &[u8]) -> Result<u16, Refusal>
    ensures { result ≡ judged (meanings_of file.now) }
{
    // The walk goes from one line's end to the next, so that no range or iterator counts it.
    let mut from = 0;
    while from < file.len() {
        let end = line_end(file, from);
        if let Line::End(start) = line_of(&file[from..end])? {
            if end < file.len() {
                return Err(Refusal::LineShape);
            }
            return Ok(start);
        }
        from = end;
    }
    Err(Refusal::NoEnd)
}

// The data of an S1 line, stored from its address on.
fn store_data(mem: &mut [u8], text: &[u8], address: u16, count: usize)
    requires { (address + count ≤ length mem.old) × (3 + count ≤ length (line_bytes text.now)) }
    ensures { mem.new ≡ sets mem.old address (take count (drop 3 (line_bytes text.now))) }
{
    let first = address as usize;
    for i in 0..count {
        mem[first + i] = byte(text, 3 + i);
    }
}

// The second pass over a sound file: every S1 line is stored.
fn store_lines(mem: &mut [u8], file: &[u8])
    requires { length mem.old ≡ 65536 }
    ensures { mem.new ≡ landed (meanings_of file.now) mem.old }
{
    // From one line's end to the next, as in `judge`.
    let mut from = 0;
    while from < file.len() {
        let end = line_end(file, from);
        let text = &file[from..end];
        if let Ok(Line::Data { address, count }) = line_of(text) {
            store_data(mem, text, address, count);
        }
        from = end;
    }
}

// All lines are judged before the first byte is stored, so that a refused file leaves memory untouched.
pub fn read(mem: &mut [u8], file: &[u8]) -> Result<u16, Refusal>
    ensures { (result ≡ loaded_of mem.old file.now) × (mem.new ≡ memory_loaded mem.old file.now) }
{
    if mem.len() != 65536 {
        return Err(Refusal::MemoryLength);
    }
    let start = judge(file)?;
    store_lines(mem, file);
    Ok(start)
}
