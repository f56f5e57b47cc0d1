// A listing: firmware in S-records, a line for each instruction.
#![tactic(auto)]

ghost use Rattle.std.specs.Prelude.{◌≡◌, cond, [], ◌∷◌, ◌++◌, ◌+◌, ◌*◌, ◌≤◌, ◌<◌, length, replicate};
ghost use Rattle.std.proofs.lemmas.List.Edits.{sets};
ghost use Rattle.answers.specs.Numbers.{number_of};
ghost use Rattle.text.specs.Lines.{alone, line_feed};
ghost use Rattle.disassembly.specs.Line.{space, line_length};
ghost use Rattle.disassembly.specs.Disassembly.{legible};
ghost use Rattle.listing.specs.Listing.{refused_at, line_from, next_from, left_after, listing, empty_memory, file_listing, list_printed};

use answers::Refusal;
use disassembly::LINE;

// An address, whether it counts, and a count of lines, before an S-record file.
const HEAD: usize = 5;

// The longest input: a head and 1 MiB of text.
const LONGEST: usize = HEAD + 0x10_0000;

// The vector of reset.
const RESET: u16 = 0xFFFE;

const MEMORY: usize = 0x10000;

// A function of its own, as in `player`, so that the proof of its caller need not open the array; each says it by its own definition.
fn zeroed_memory() -> [u8; MEMORY]
    ensures { result ≡ empty_memory }
{
    [0; MEMORY]
}

// Writes the one line of a refused input, and returns its length.
// Each crate that prints has this line for itself: `text` knows no refusals.
fn put_refusal(out: &mut [u8], refusal: Refusal) -> usize
    ensures { (result ≡ length (alone (number_of refusal))) × (out.new ≡ sets out.old 0 (alone (number_of refusal))) }
{
    text::alone(refusal.number()).put(out, 0)
}

fn word(high: u8, low: u8) -> u16
    ensures { result ≡ 256 * high + low }
{
    u16::from_be_bytes([high, low])
}

// A line with its line feed, and the address after what it tells, which may be 10000.
#[derive(Clone, Copy)]
struct Told {
    line: [u8; LINE + 1],
    next: u32,
}

// Spaces and a line feed.
fn blank() -> [u8; LINE + 1]
    ensures { result ≡ replicate line_length space ++ (line_feed ∷ []) }
{
    let mut line = [b' '; LINE + 1];
    line[LINE] = b'\n';
    line
}

fn refused_line(mem: &[u8], at: u16, refusal: Refusal) -> [u8; LINE + 1]
    ensures { result ≡ refused_at mem.now at refusal ++ (line_feed ∷ []) }
{
    let mut line = blank();
    let address = text::hex4(at);
    let pair = text::hex2(memory::read_u8(mem, at));
    text::put(&mut line, 0, &address);
    text::put(&mut line, 6, &pair);
    text::put(&mut line, 22, b"FCB");
    text::put(&mut line, 28, b"$");
    text::put(&mut line, 29, &pair);
    text::put(&mut line, 31, b"  REFUSED BY ");
    text::decimal(refusal.number() as u64).put(&mut line, 44);
    line
}

fn line_at(mem: &[u8], at: u16) -> Told
    requires { length mem.now ≡ 65536 }
    ensures { (result.line ≡ line_from mem.now at (legible mem.now at) ++ (line_feed ∷ [])) × (result.next ≡ next_from at (legible mem.now at)) }
{
    let mut line = blank();
    match disassembly::disassemble(mem, at, &mut line) {
        Ok(n) => Told {
            line,
            next: at as u32 + n as u32,
        },
        // The refusal ends here: its number is told in the line.
        Err(refusal) => Told {
            line: refused_line(mem, at, refusal),
            next: at as u32 + 1,
        },
    }
}

// How many lines are left after one of them: none past FFFF.
fn left_after(left: u16, next: u32) -> u16
    requires { 0 < left }
    ensures { result ≡ left_after left next }
{
    if next > 0xFFFF { 0 } else { left - 1 }
}

// Writes up to `count` lines from an address on, and returns where they end.
fn put_lines(out: &mut [u8], mem: &[u8], from: u16, count: u16) -> usize
    requires { length mem.now ≡ 65536 }
    ensures { (result ≡ length (listing count mem.now from)) × ((out.new ≡ sets out.old 0 (listing count mem.now from)) × (result ≤ 49 * 65536)) }
{
    let mut at = from;
    let mut used = 0;
    // A line may be the last, so that no range counts the turns.
    let mut left = count;
    while 0 < left {
        let told = line_at(mem, at);
        text::put(out, used, &told.line);
        used += LINE + 1;
        left = left_after(left, told.next);
        at = (told.next % 0x10000) as u16;
    }
    used
}

// The first address: the one that is given, or where a reset leads.
fn start(given: bool, at: u16, reset: u16) -> u16
    ensures { result ≡ cond given at reset }
{
    if given { at } else { reset }
}

// The text of an S-record file, with what the head says.
fn list_text(text: &[u8], out: &mut [u8], given: bool, at: u16, count: u16) -> usize
    ensures { (result ≡ length (file_listing given at count text.now)) × ((out.new ≡ sets out.old 0 (file_listing given at count text.now)) × (result ≤ 49 * 65536)) }
{
    let mut mem = zeroed_memory();
    match srecord::read(&mut mem, text) {
        // The refusal ends here: its number is printed.
        Err(refusal) => put_refusal(out, refusal),
        Ok(_) => {
            let from = start(given, at, memory::read_u16(&mem, RESET));
            put_lines(out, &mem, from, count)
        }
    }
}

// Writes what the program `list` prints at the front of `out`, and returns its length.
pub fn list(input: &[u8], out: &mut [u8]) -> usize
    ensures { (result ≡ length (list_printed input.now)) × ((out.new ≡ sets out.old 0 (list_printed input.now)) × (result ≤ 49 * 65536)) }
{
    if input.len() < HEAD {
        return put_refusal(out, Refusal::Malformed);
    }
    if LONGEST < input.len() {
        return put_refusal(out, Refusal::Malformed);
    }
    let at = word(input[0], input[1]);
    let count = word(input[3], input[4]);
    let text = &input[HEAD..];
    // The number is the input's.
    match input[2] {
        0 => list_text(text, out, false, at, count),
        1 => list_text(text, out, true, at, count),
        _ => put_refusal(out, Refusal::Malformed),
    }
}
