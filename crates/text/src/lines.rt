// Decimal numbers and the lines that are printed, as values.
ghost use Rattle.std.specs.Prelude.{◌≡◌, [], ◌∷◌, ◌+◌, ◌≤◌, length};
ghost use Rattle.std.proofs.lemmas.List.Edits.{sets};
ghost use Rattle.text.specs.Hex.{hex2 as Hex·hex2};
ghost use Rattle.text.specs.Lines.{decimal as Lines·decimal, line as Lines·line, alone as Lines·alone, text_of, grown, said};

use crate::{hex2, hex4, lay, put};

// The longest line: an answer of three digits, PC, CC, a counter of twenty digits.
const ROOM: usize = 33;

// A text of at most 33 bytes: `len` of them are used, the others are 0. Memory is fixed here, and a text is a value that is copied: so its bytes
// stand beside their number.
#[derive(Clone, Copy)]
pub struct Text {
    pub bytes: [u8; ROOM],
    pub len: usize,
}

impl Text {
    // No byte is used.
    pub fn empty() -> Text
        ensures { result ≡ text_of [] }
    {
        Text {
            bytes: [0; ROOM],
            len: 0,
        }
    }

    // A text with one byte more, if there is room.
    pub fn with_byte(mut self, b: u8) -> Text
        ensures { result ≡ grown self (b ∷ []) }
    {
        if self.len < ROOM {
            self.bytes[self.len] = b;
            self.len += 1;
        }
        self
    }

    pub fn with_hex(self, b: u8) -> Text
        ensures { result ≡ grown self (Hex·hex2 b) }
    {
        let [high, low] = hex2(b);
        self.with_byte(high).with_byte(low)
    }

    pub fn with_decimal(self, n: u64) -> Text
        ensures { result ≡ grown self (Lines·decimal n) }
    {
        if n < 10 {
            return self.with_byte(b'0' + n as u8);
        }
        self.with_decimal(n / 10).with_byte(b'0' + (n % 10) as u8)
    }

    // Writes the text at a place, and returns its length. What would lie past the end is left out.
    pub fn put(self, out: &mut [u8], at: usize) -> usize
        ensures { (result ≡ length (said self)) × (out.new ≡ sets out.old at (said self)) }
    {
        let len = self.len.min(ROOM);
        put(out, at, &self.bytes[..len]);
        len
    }
}

pub fn decimal(n: u64) -> Text
    ensures { result ≡ text_of (Lines·decimal n) }
{
    Text::empty().with_decimal(n)
}

// A number in a line of its own.
pub fn alone(n: u8) -> Text
    ensures { result ≡ text_of (Lines·alone n) }
{
    decimal(n as u64).with_byte(b'\n')
}

// How many decimal digits a number has.
// A while and not a for: the number says when it ends, so that no range counts the turns.
fn digits(n: u64) -> usize
    ensures { result ≡ length (Lines·decimal n) }
{
    let mut count = 1;
    let mut rest = n;
    while 10 <= rest {
        rest /= 10;
        count += 1;
    }
    count
}

// Writes a number at a place that has room for it, the last digit first, and returns where it ends.
// Beside `with_decimal`, which copies the text for each digit: `run` was slower by it (docs/PERFORMANCE.md). A while, as in `digits`.
fn lay_decimal(out: &mut [u8], at: usize, n: u64) -> usize
    requires { at + length (Lines·decimal n) ≤ length out.old }
    ensures { (result ≡ at + length (Lines·decimal n)) × (out.new ≡ sets out.old at (Lines·decimal n)) }
{
    let end = at + digits(n);
    let mut rest = n;
    let mut i = end - 1;
    while 10 <= rest {
        out[i] = b'0' + (rest % 10) as u8;
        rest /= 10;
        i -= 1;
    }
    out[i] = b'0' + rest as u8;
    end
}

// Writes the line of a call at a place that has room for the longest, and returns where it ends.
fn lay_line(out: &mut [u8], at: usize, answer: u8, pc: u16, cc: u8, cycles: u64) -> usize
    requires { at + 33 ≤ length out.old }
    ensures { (result ≡ at + length (Lines·line answer pc cc cycles)) × (out.new ≡ sets out.old at (Lines·line answer pc cc cycles)) }
{
    let middle = lay_decimal(out, at, answer as u64);
    let p = hex4(pc);
    let c = hex2(cc);
    lay(
        out,
        middle,
        &[b' ', p[0], p[1], p[2], p[3], b' ', c[0], c[1], b' '],
    );
    let last = lay_decimal(out, middle + 9, cycles);
    out[last] = b'\n';
    last + 1
}

// The line of a call.
pub fn line(answer: u8, pc: u16, cc: u8, cycles: u64) -> Text
    ensures { result ≡ text_of (Lines·line answer pc cc cycles) }
{
    let mut bytes = [0; ROOM];
    let len = lay_line(&mut bytes, 0, answer, pc, cc, cycles);
    Text { bytes, len }
}
