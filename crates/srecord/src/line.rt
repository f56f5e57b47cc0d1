// One line: its shape, its checksum and what it says.
ghost use Rattle.std.specs.Prelude.{◌≡◌, ◌%◌, ◌≤◌, true, length, take, slice_index};
ghost use Rattle.srecord.specs.Layout.{total};
ghost use Rattle.srecord.specs.Line.{line_bytes, may_hold, is_shaped, is_summed, line_address, data_of, meant, line_of, line_answer};

use super::layout::paired;
use answers::Refusal;

// One line. The data of an S1 line are in its text, pairs of digits from index 8 on.
#[derive(Clone, Copy)]
pub enum Line {
    Header,
    Data { address: u16, count: usize },
    End(u16),
}

// How many bytes a line has: two digits for each, after the S and the kind.
fn size(text: &[u8]) -> usize
    ensures { result ≡ length (line_bytes text.now) }
{
    text.len().saturating_sub(2) / 2
}

// Byte i of a line, 0 if it has none.
// No Option: `slice_index`, which the contracts name, is 0 there, and each caller asks below `size`.
pub fn byte(text: &[u8], i: usize) -> u8
    ensures { result ≡ slice_index (line_bytes text.now) i }
{
    if i < size(text) {
        text::byte(text[2 + 2 * i], text[3 + 2 * i])
    } else {
        0
    }
}

// The low byte of the sum of the first n bytes of a line.
fn sum_bytes(text: &[u8], n: usize) -> u8
    requires { n ≤ length (line_bytes text.now) }
    ensures { result ≡ total (take n (line_bytes text.now)) % 256 }
{
    let mut sum: u8 = 0;
    for i in 0..n {
        sum = sum.wrapping_add(byte(text, i));
    }
    sum
}

// The most data bytes of a line: its count is a byte, and counts two bytes of address and the checksum too.
const MOST: usize = 252;

// Whether a line of this kind may have n data bytes.
// The kind is the file's character; it becomes a `Line` where shape and checksum are right.
fn may_hold(kind: u8, n: usize) -> bool
    ensures { result ≡ may_hold kind n }
{
    match kind {
        b'0' => n <= MOST,
        b'1' => 0 < n && n <= MOST,
        b'9' => n == 0,
        _ => false,
    }
}

// A line has at least a count, two bytes of address and a checksum; the count is that of the bytes after it.
fn shaped(text: &[u8]) -> bool
    ensures { result ≡ is_shaped text.now }
{
    let [b'S', kind, digits @ ..] = text else {
        return false;
    };
    if !paired(digits) {
        return false;
    }
    let n = size(text);
    if n < 4 {
        return false;
    }
    byte(text, 0) as usize == n - 1 && may_hold(*kind, n - 4)
}

// Whether the last byte is the checksum of those before it: the complement of the low byte of their sum.
fn summed(text: &[u8]) -> bool
    requires { is_shaped text.now ≡ true }
    ensures { result ≡ is_summed (line_bytes text.now) }
{
    let n = size(text) - 1;
    byte(text, n) == !sum_bytes(text, n)
}

// What a line says whose shape and checksum are right.
fn meaning(text: &[u8]) -> Result<Line, Refusal>
    requires { is_shaped text.now ≡ true }
    ensures { result ≡ line_answer (meant (slice_index text.now 1) (line_address (line_bytes text.now)) (data_of (line_bytes text.now))) }
{
    let address = u16::from_be_bytes([byte(text, 1), byte(text, 2)]);
    let count = size(text) - 4;
    match text[1] {
        b'0' => Ok(Line::Header),
        b'9' => Ok(Line::End(address)),
        _ if address as usize + count <= 65536 => Ok(Line::Data { address, count }),
        _ => Err(Refusal::PastTop),
    }
}

// One line, with its line feed. The commonest S9 line is known by its text.
pub fn line_of(text: &[u8]) -> Result<Line, Refusal>
    ensures { result ≡ line_answer (line_of text.now) }
{
    if text == b"S9030000FC\n".as_slice() {
        return Ok(Line::End(0));
    }
    if !shaped(text) {
        return Err(Refusal::LineShape);
    }
    if !summed(text) {
        return Err(Refusal::Checksum);
    }
    meaning(text)
}
