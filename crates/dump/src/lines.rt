// The line of an entry: a field's name and both values, or a run's first and last address. Each `put` writes at a place and returns the
// place after what it wrote.
ghost use Rattle.std.specs.Prelude.{◌≡◌, ◌≤◌, length};
ghost use Rattle.dump.specs.Told.{Wrote, name_text, wait_text, mark_text, hex_bytes, shown_at, shown_text, entry_line};

use difference::{Entry, RUN};

// How a number is shown: the wait state and the mark by their words, the others by their bytes.
#[derive(Clone, Copy, PartialEq, Eq, Debug)]
pub enum Shown {
    Byte,
    Word,
    Counter,
    WaitState,
    Mark,
}

// The fields in the record's order.
const SHOWN: [Shown; RUN as usize] = [
    Shown::Byte,
    Shown::Byte,
    Shown::Word,
    Shown::Word,
    Shown::Word,
    Shown::Word,
    Shown::Word,
    Shown::Byte,
    Shown::Byte,
    Shown::WaitState,
    Shown::Mark,
    Shown::Counter,
    Shown::Counter,
];

fn put_text(out: &mut [u8], at: usize, part: &[u8]) -> usize
    requires { at ≤ 0x1000_0000 }
    ensures { Wrote out.old at part.now result out.new }
{
    text::put(out, at, part);
    at + part.len()
}

// Output and place stand apart, as in `text::put`. The bounds, far above every list, keep their sums from wrapping.
fn put_hex(out: &mut [u8], at: usize, bytes: &[u8]) -> usize
    requires { (length bytes.now ≤ 8) × (at ≤ 0x100_0000) }
    ensures { Wrote out.old at (hex_bytes bytes.now) result out.new }
{
    let mut end = at;
    for b in bytes {
        end = put_text(out, end, &text::hex2(*b));
    }
    end
}

// The number is an entry's, and may be any: so no enum. So are those of `wait_name` and `mark_name`.
fn name_of(what: u8) -> &'static [u8]
    ensures { result.now ≡ name_text what }
{
    match what {
        0 => b"A",
        1 => b"B",
        2 => b"X",
        3 => b"Y",
        4 => b"U",
        5 => b"S",
        6 => b"PC",
        7 => b"DP",
        8 => b"CC",
        9 => b"wait",
        10 => b"mark",
        11 => b"cycles",
        12 => b"instructions",
        _ => b"memory",
    }
}

fn wait_name(n: u64) -> &'static [u8]
    ensures { result.now ≡ wait_text n }
{
    match n {
        0 => b"running",
        1 => b"CWAI",
        _ => b"SYNC",
    }
}

fn mark_name(n: u64) -> &'static [u8]
    ensures { result.now ≡ mark_text n }
{
    match n {
        0 => b"unarmed",
        _ => b"armed",
    }
}

// A field's value, or an address.
fn shown_of(what: u8) -> Shown
    ensures { result ≡ shown_at what }
{
    if what < RUN {
        SHOWN[what as usize]
    } else {
        Shown::Word
    }
}

impl Shown {
    fn put(self, out: &mut [u8], at: usize, n: u64) -> usize
        requires { at ≤ 0x100_0000 }
        ensures { Wrote out.old at (shown_text self n) result out.new }
    {
        let bytes = machine::counter_of(n);
        match self {
            Shown::Byte => put_hex(out, at, &bytes[7..]),
            Shown::Word => put_hex(out, at, &bytes[6..]),
            Shown::Counter => put_hex(out, at, &bytes),
            Shown::WaitState => put_text(out, at, wait_name(n)),
            Shown::Mark => put_text(out, at, mark_name(n)),
        }
    }
}

pub(super) fn put_line(out: &mut [u8], at: usize, entry: Entry) -> usize
    requires { at ≤ 0x80_0000 }
    ensures { Wrote out.old at (entry_line entry) result out.new }
{
    let shown = shown_of(entry.what);
    let name = put_text(out, at, name_of(entry.what));
    let first = put_text(out, name, b" ");
    let left = shown.put(out, first, entry.left);
    let second = put_text(out, left, b" ");
    let right = shown.put(out, second, entry.right);
    put_text(out, right, b"\n")
}
