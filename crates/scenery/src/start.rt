// What a scene starts with, by the line's numbers and letters, and undos until one is refused.
ghost use Rattle.std.specs.Prelude.{◌≡◌, ◌<◌, IsErr, set};
ghost use Rattle.journal.specs.Recorded.{in_hand};
ghost use Rattle.scenery.specs.Line.{filled, flags_in, interrupt_in, registers_in, wait_in};
ghost use Rattle.scenery.specs.Undos.{undone_from, UndosLeave};

use crate::byte_at;
use crate::line::{byte_behind, word_behind};
use calls::InterruptType;
use journal::{Outcome, Twin};
use machine::Wait;
use memory::Writes;
use registers::{CCBits, Flags, Set};

pub const BYTES: usize = 0x10000;

// Where the code stands.
pub const CODE: u16 = 0x1000;

// More undos than the journal of any scene has records.
const MOST_UNDOS: u64 = 100000;

// The letters are the line's, and become an enum here and below.
pub fn flags_of(letter: u8) -> Flags
    ensures { result ≡ flags_in letter }
{
    if letter == b'B' {
        Flags::Bought
    } else {
        Flags::Manual
    }
}

pub fn wait_of(letter: u8) -> Wait
    ensures { result ≡ wait_in letter }
{
    match letter {
        b'0' => Wait::Running,
        b'1' => Wait::Cwai,
        _ => Wait::Sync,
    }
}

pub fn interrupt_of(letter: u8) -> InterruptType
    ensures { result ≡ interrupt_in letter }
{
    match letter {
        b'I' => InterruptType::Irq,
        b'F' => InterruptType::Firq,
        _ => InterruptType::Nmi,
    }
}

// CC A B DP X Y U S from a place of the line on.
pub fn registers_at<const N: usize>(line: &[u8; N], at: usize, pc: u16) -> Set
    ensures { result ≡ registers_in line.now at pc }
{
    Set {
        x: word_behind(line, at, 12),
        y: word_behind(line, at, 17),
        u: word_behind(line, at, 22),
        s: word_behind(line, at, 27),
        pc,
        a: byte_behind(line, at, 3),
        b: byte_behind(line, at, 6),
        dp: byte_behind(line, at, 9),
        cc: CCBits {
            reg: byte_at(line, at),
        },
    }
}

// A byte put raw, if there is room for it.
// An index and no `get_mut`: with it the proof did not close.
pub fn put_one(bytes: &mut [u8], at: usize, byte: u8)
    ensures { bytes.new ≡ set bytes.old at byte }
{
    if at < bytes.len() {
        bytes[at] = byte;
    }
}

// Bytes of the line put raw into memory, around its end.
pub fn fill<const N: usize>(mem: &mut [u8], at: u16, line: &[u8; N], from: usize, count: u16)
    ensures { mem.new ≡ filled mem.old at line.now from count }
{
    for i in 0..count {
        let byte = byte_behind(line, from, 2 * i as usize);
        put_one(mem, at.wrapping_add(i) as usize, byte);
    }
}

// The last undo, and how many were accepted.
#[derive(Clone, Copy)]
pub struct Undone {
    pub last: Outcome,
    pub undos: u64,
}

// Undo until it is refused.
pub fn undo_all(mem: &mut [u8], journal: &[u8], twin: Twin) -> Undone
    ensures leaves { UndosLeave result mem.new (undone_from (in_hand mem.old journal.now twin)) }
    ensures refused { result.undos < 100000 → IsErr result.last.answer }
{
    let mut last = Outcome {
        devices: Writes::none(),
        twin,
        reads: 0,
        writes: 0,
        answer: Ok(()),
    };
    for undos in 0..MOST_UNDOS {
        last = journal::undo(mem, journal, last.twin);
        if last.answer.is_err() {
            return Undone { last, undos };
        }
    }
    Undone {
        last,
        undos: MOST_UNDOS,
    }
}
