// Memory as text: the rows that are not all zero, each an S1 line, and S9.
// Output and place stand apart, as in `text::put`. Both lengths are facts of contracts and no types: any slice may be lent.
ghost use Rattle.std.specs.Prelude.{◌≡◌, ◌+◌, ◌*◌, ◌≤◌, [], length};
ghost use Rattle.std.proofs.lemmas.List.Edits.{sets};
ghost use Rattle.srecord.specs.Layout.{kind9, pairs, line_text};
ghost use Rattle.srecord.specs.Line.{most_data};
ghost use Rattle.srecord.specs.Written.{rows_text, is_zero, output_written, output_after};

use super::layout::sum_of;
use answers::Refusal;

fn put_pairs(out: &mut [u8], at: usize, list: &[u8])
    requires { at + 2 * length list.now ≤ length out.old }
    ensures { out.new ≡ sets out.old at (pairs list.now) }
{
    for (i, &b) in list.iter().enumerate() {
        text::put(out, at + 2 * i, &text::hex2(b));
    }
}

// One line. The data are not too many, so that the count is a byte.
fn put_line(out: &mut [u8], at: usize, kind: u8, address: u16, list: &[u8])
    requires { (length list.now ≤ most_data) × (at + (11 + 2 * length list.now) ≤ length out.old) }
    ensures { out.new ≡ sets out.old at (line_text kind address list.now) }
{
    text::put(out, at, &[b'S', kind]);
    let [high, low] = address.to_be_bytes();
    let fields = [(list.len() + 3) as u8, high, low];
    put_pairs(out, at + 2, &fields);
    put_pairs(out, at + 8, list);
    let sum = sum_of(&fields).wrapping_add(sum_of(list));
    let after = at + 8 + 2 * list.len();
    put_pairs(out, after, &[!sum]);
    text::put(out, after + 2, b"\n");
}

fn all_zero(row: &[u8]) -> bool
    ensures { result ≡ is_zero row.now }
{
    row.iter().all(|&b| b == 0)
}

// How long the text is without its S9 line: 75 characters for each row of 32 bytes that are not all zero.
// The walk of `put_rows` without its writing: an output that is too short has to stay unchanged.
fn rows_length(mem: &[u8]) -> usize
    requires { length mem.now ≡ 65536 }
    ensures { result ≡ length (rows_text mem.now 2048) }
{
    let mut n = 0;
    for k in 0..2048 {
        let from = 32 * k;
        let end = from + 32;
        if !all_zero(&mem[from..end]) {
            n += 75;
        }
    }
    n
}

// The rows of memory that are not all zero, each as an S1 line; and where they end.
fn put_rows(mem: &[u8], out: &mut [u8]) -> usize
    requires { (length mem.now ≡ 65536) × (length (rows_text mem.now 2048) ≤ length out.old) }
    ensures { (result ≡ length (rows_text mem.now 2048)) × (out.new ≡ sets out.old 0 (rows_text mem.now 2048)) }
{
    let mut at = 0;
    for k in 0u16..2048 {
        let from = 32 * k as usize;
        let end = from + 32;
        let row = &mem[from..end];
        if !all_zero(row) {
            put_line(out, at, b'1', 32 * k, row);
            at += 75;
        }
    }
    at
}

// The S9 line: a fixed text for the start 0000.
fn put_end(out: &mut [u8], at: usize, start: u16)
    requires { at + 11 ≤ length out.old }
    ensures { out.new ≡ sets out.old at (line_text kind9 start []) }
{
    if start == 0 {
        text::put(out, at, b"S9030000FC\n");
    } else {
        put_line(out, at, b'9', start, b"");
    }
}

// The text's length is found before the first byte is written, so that a short output stays unchanged.
pub fn write(mem: &[u8], start: u16, out: &mut [u8]) -> Result<usize, Refusal>
    ensures { (result ≡ output_written mem.now start out.old) × (out.new ≡ output_after mem.now start out.old) }
{
    if mem.len() != 65536 {
        return Err(Refusal::MemoryLength);
    }
    let count = rows_length(mem) + 11;
    if out.len() < count {
        return Err(Refusal::OutputShort);
    }
    let at = put_rows(mem, out);
    put_end(out, at, start);
    Ok(count)
}
