// Page 10 of the opcode table, the opcodes after a byte 10: the rows of sixteen places that have an instruction, each set at its low digit.
// Each row is written out, though some part in the mode alone: it is the manual's table, and no row is built at run time
// (docs/PERFORMANCE.md). The pages have a `place` each, which names their rows.
ghost use Rattle.std.specs.Prelude.{◌≡◌};
ghost use Rattle.opcodes.specs.Manual.{entry_of};
ghost use Rattle.opcodes.specs.Rows.{row_of};
ghost use Rattle.opcodes.specs.declared.Page.TheVariants.{Ten};

use opcodes::{
    Cond, Entry, MemoryOp, Mode, Software, at_digit, branch, compare16, load16, memory, store16,
};
use registers::Word;

// Long branches.
fn row_2() -> [Option<Entry>; 16]
    ensures { result ≡ row_of Ten 0x2 }
{
    [
        None,
        branch(Cond::Rn, Mode::Relative16, 4, 5),
        branch(Cond::Hi, Mode::Relative16, 4, 5),
        branch(Cond::Ls, Mode::Relative16, 4, 5),
        branch(Cond::Cc, Mode::Relative16, 4, 5),
        branch(Cond::Cs, Mode::Relative16, 4, 5),
        branch(Cond::Ne, Mode::Relative16, 4, 5),
        branch(Cond::Eq, Mode::Relative16, 4, 5),
        branch(Cond::Vc, Mode::Relative16, 4, 5),
        branch(Cond::Vs, Mode::Relative16, 4, 5),
        branch(Cond::Pl, Mode::Relative16, 4, 5),
        branch(Cond::Mi, Mode::Relative16, 4, 5),
        branch(Cond::Ge, Mode::Relative16, 4, 5),
        branch(Cond::Lt, Mode::Relative16, 4, 5),
        branch(Cond::Gt, Mode::Relative16, 4, 5),
        branch(Cond::Le, Mode::Relative16, 4, 5),
    ]
}

// SWI2.
fn row_3() -> [Option<Entry>; 16]
    ensures { result ≡ row_of Ten 0x3 }
{
    let mut row = [None; 16];
    row[0xF] = memory(MemoryOp::Swi(Software::Swi2), Mode::Inherent, 2, 20);
    row
}

// D and Y, immediate.
fn row_8() -> [Option<Entry>; 16]
    ensures { result ≡ row_of Ten 0x8 }
{
    let mut row = [None; 16];
    row[0x3] = compare16(Word::D, Mode::Immediate16, 4, 5);
    row[0xC] = compare16(Word::Y, Mode::Immediate16, 4, 5);
    row[0xE] = load16(Word::Y, Mode::Immediate16, 4, 4);
    row
}

// D and Y, direct.
fn row_9() -> [Option<Entry>; 16]
    ensures { result ≡ row_of Ten 0x9 }
{
    let mut row = [None; 16];
    row[0x3] = compare16(Word::D, Mode::Direct, 3, 7);
    row[0xC] = compare16(Word::Y, Mode::Direct, 3, 7);
    row[0xE] = load16(Word::Y, Mode::Direct, 3, 6);
    row[0xF] = store16(Word::Y, Mode::Direct, 3, 6);
    row
}

// D and Y, indexed.
fn row_a() -> [Option<Entry>; 16]
    ensures { result ≡ row_of Ten 0xA }
{
    let mut row = [None; 16];
    row[0x3] = compare16(Word::D, Mode::Indexed, 3, 7);
    row[0xC] = compare16(Word::Y, Mode::Indexed, 3, 7);
    row[0xE] = load16(Word::Y, Mode::Indexed, 3, 6);
    row[0xF] = store16(Word::Y, Mode::Indexed, 3, 6);
    row
}

// D and Y, extended.
fn row_b() -> [Option<Entry>; 16]
    ensures { result ≡ row_of Ten 0xB }
{
    let mut row = [None; 16];
    row[0x3] = compare16(Word::D, Mode::Extended, 4, 8);
    row[0xC] = compare16(Word::Y, Mode::Extended, 4, 8);
    row[0xE] = load16(Word::Y, Mode::Extended, 4, 7);
    row[0xF] = store16(Word::Y, Mode::Extended, 4, 7);
    row
}

// S, immediate.
fn row_c() -> [Option<Entry>; 16]
    ensures { result ≡ row_of Ten 0xC }
{
    let mut row = [None; 16];
    row[0xE] = load16(Word::S, Mode::Immediate16, 4, 4);
    row
}

// S, direct.
fn row_d() -> [Option<Entry>; 16]
    ensures { result ≡ row_of Ten 0xD }
{
    let mut row = [None; 16];
    row[0xE] = load16(Word::S, Mode::Direct, 3, 6);
    row[0xF] = store16(Word::S, Mode::Direct, 3, 6);
    row
}

// S, indexed.
fn row_e() -> [Option<Entry>; 16]
    ensures { result ≡ row_of Ten 0xE }
{
    let mut row = [None; 16];
    row[0xE] = load16(Word::S, Mode::Indexed, 3, 6);
    row[0xF] = store16(Word::S, Mode::Indexed, 3, 6);
    row
}

// S, extended.
fn row_f() -> [Option<Entry>; 16]
    ensures { result ≡ row_of Ten 0xF }
{
    let mut row = [None; 16];
    row[0xE] = load16(Word::S, Mode::Extended, 4, 7);
    row[0xF] = store16(Word::S, Mode::Extended, 4, 7);
    row
}

// The place of a byte: in the row of its high digit, at its low one.
pub fn place(code: u8) -> Option<Entry>
    ensures { result ≡ entry_of Ten code }
{
    match code / 16 {
        0x2 => at_digit(row_2(), code),
        0x3 => at_digit(row_3(), code),
        0x8 => at_digit(row_8(), code),
        0x9 => at_digit(row_9(), code),
        0xA => at_digit(row_a(), code),
        0xB => at_digit(row_b(), code),
        0xC => at_digit(row_c(), code),
        0xD => at_digit(row_d(), code),
        0xE => at_digit(row_e(), code),
        0xF => at_digit(row_f(), code),
        _ => None,
    }
}
