// Rows 8 to F, columns 3 and C to F: an operation on a word. The page and bit 6 name the register.
ghost use Rattle.std.specs.Prelude.{◌≡◌, true, false, ◌%◌};
ghost use Rattle.registers.specs.ConditionCodes.{bit_at};
ghost use Rattle.fields.specs.TwoOperands.{columns, word_operation, call, word_place};

use super::bits::{is_second, mode_of, unless_immediate};
use super::entries::entry_at;
use opcodes::{Entry, MemoryOp, Mode, Op, Page, RegisterOp};
use registers::Word;

// What a column stands for: a sum, difference or comparison; a load; a store; BSR or JSR.
#[derive(Clone, Copy)]
pub enum WordOp {
    Arithmetic(RegisterOp),
    Load(Word),
    Store(Word),
    Call,
}

// The columns that have words: 3, and C to F.
fn at_column(
    column: u8,
    at_3: Option<WordOp>,
    at_c: Option<WordOp>,
    at_d: Option<WordOp>,
    at_e: Option<WordOp>,
    at_f: Option<WordOp>,
) -> Option<WordOp>
    ensures { result ≡ columns at_3 at_c at_d at_e at_f column }
{
    match column {
        0x3 => at_3,
        0xC => at_c,
        0xD => at_d,
        0xE => at_e,
        0xF => at_f,
        _ => None,
    }
}

// Bit 6 clear.
fn first(page: Page, column: u8) -> Option<WordOp>
    ensures { result ≡ word_operation false page column }
{
    match page {
        Page::Plain => at_column(
            column,
            Some(WordOp::Arithmetic(RegisterOp::Subd)),
            Some(WordOp::Arithmetic(RegisterOp::Cmp16(Word::X))),
            Some(WordOp::Call),
            Some(WordOp::Load(Word::X)),
            Some(WordOp::Store(Word::X)),
        ),
        Page::Ten => at_column(
            column,
            Some(WordOp::Arithmetic(RegisterOp::Cmp16(Word::D))),
            Some(WordOp::Arithmetic(RegisterOp::Cmp16(Word::Y))),
            None,
            Some(WordOp::Load(Word::Y)),
            Some(WordOp::Store(Word::Y)),
        ),
        Page::Eleven => at_column(
            column,
            Some(WordOp::Arithmetic(RegisterOp::Cmp16(Word::U))),
            Some(WordOp::Arithmetic(RegisterOp::Cmp16(Word::S))),
            None,
            None,
            None,
        ),
    }
}

// Bit 6 set.
// Beside `first`: the words themselves are all that each says.
fn second(page: Page, column: u8) -> Option<WordOp>
    ensures { result ≡ word_operation true page column }
{
    match page {
        Page::Plain => at_column(
            column,
            Some(WordOp::Arithmetic(RegisterOp::Addd)),
            Some(WordOp::Load(Word::D)),
            Some(WordOp::Store(Word::D)),
            Some(WordOp::Load(Word::U)),
            Some(WordOp::Store(Word::U)),
        ),
        Page::Ten => at_column(
            column,
            None,
            None,
            None,
            Some(WordOp::Load(Word::S)),
            Some(WordOp::Store(Word::S)),
        ),
        Page::Eleven => None,
    }
}

fn operation(page: Page, code: u8) -> Option<WordOp>
    ensures { result ≡ word_operation (bit_at 6 code) page (code % 16) }
{
    if is_second(code) {
        second(page, code % 16)
    } else {
        first(page, code % 16)
    }
}

// JSR. There is nothing to call in an immediate operand: its place has BSR, whose operand is an offset.
fn call(code: u8) -> Option<Entry>
    ensures { result ≡ call code }
{
    if (code >> 4) % 4 == 0 {
        return entry_at(Page::Plain, Op::Memory(MemoryOp::Bsr), Mode::Relative8, 7);
    }
    entry_at(
        Page::Plain,
        Op::Memory(MemoryOp::Jsr),
        mode_of(code, Mode::Immediate16),
        5,
    )
}

pub fn place(page: Page, code: u8) -> Option<Entry>
    ensures { result ≡ word_place page code }
{
    let mode = mode_of(code, Mode::Immediate16);
    match operation(page, code)? {
        WordOp::Arithmetic(op) => entry_at(page, Op::Registers(op), mode, 4),
        WordOp::Load(word) => entry_at(page, Op::Registers(RegisterOp::Load16(word)), mode, 3),
        WordOp::Store(word) => {
            let op = Op::Memory(MemoryOp::Store16(word));
            unless_immediate(code, entry_at(page, op, mode, 3))
        }
        WordOp::Call => call(code),
    }
}
