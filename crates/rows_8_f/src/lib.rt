// Rows 8 to F of the plain page of the opcode table: the sixteen places of each high digit.
// Each row is written out, though some part in mode or accumulator alone: it is the manual's table, and no row is
// built at run time (docs/PERFORMANCE.md).
#![tactic(auto)]

ghost use Rattle.std.specs.Prelude.{◌≡◌};
ghost use Rattle.opcodes.specs.Rows.{row_of};
ghost use Rattle.opcodes.specs.declared.Page.TheVariants.{Plain};

use opcodes::{
    Acc, Alu, Entry, MemoryOp, Mode, RegisterOp, alu8, compare16, load16, memory, registers,
    store16,
};
use registers::Word;

// A, D and X, immediate.
pub fn row_8() -> [Option<Entry>; 16]
    ensures { result ≡ row_of Plain 0x8 }
{
    [
        alu8(Alu::Sub, Acc::A, Mode::Immediate8, 2, 2),
        alu8(Alu::Cmp, Acc::A, Mode::Immediate8, 2, 2),
        alu8(Alu::Sbc, Acc::A, Mode::Immediate8, 2, 2),
        registers(RegisterOp::Subd, Mode::Immediate16, 3, 4),
        alu8(Alu::And, Acc::A, Mode::Immediate8, 2, 2),
        alu8(Alu::Bit, Acc::A, Mode::Immediate8, 2, 2),
        alu8(Alu::Ld, Acc::A, Mode::Immediate8, 2, 2),
        None,
        alu8(Alu::Eor, Acc::A, Mode::Immediate8, 2, 2),
        alu8(Alu::Adc, Acc::A, Mode::Immediate8, 2, 2),
        alu8(Alu::Or, Acc::A, Mode::Immediate8, 2, 2),
        alu8(Alu::Add, Acc::A, Mode::Immediate8, 2, 2),
        compare16(Word::X, Mode::Immediate16, 3, 4),
        memory(MemoryOp::Bsr, Mode::Relative8, 2, 7),
        load16(Word::X, Mode::Immediate16, 3, 3),
        None,
    ]
}

// A, D and X, direct.
pub fn row_9() -> [Option<Entry>; 16]
    ensures { result ≡ row_of Plain 0x9 }
{
    [
        alu8(Alu::Sub, Acc::A, Mode::Direct, 2, 4),
        alu8(Alu::Cmp, Acc::A, Mode::Direct, 2, 4),
        alu8(Alu::Sbc, Acc::A, Mode::Direct, 2, 4),
        registers(RegisterOp::Subd, Mode::Direct, 2, 6),
        alu8(Alu::And, Acc::A, Mode::Direct, 2, 4),
        alu8(Alu::Bit, Acc::A, Mode::Direct, 2, 4),
        alu8(Alu::Ld, Acc::A, Mode::Direct, 2, 4),
        memory(MemoryOp::Store8(Acc::A), Mode::Direct, 2, 4),
        alu8(Alu::Eor, Acc::A, Mode::Direct, 2, 4),
        alu8(Alu::Adc, Acc::A, Mode::Direct, 2, 4),
        alu8(Alu::Or, Acc::A, Mode::Direct, 2, 4),
        alu8(Alu::Add, Acc::A, Mode::Direct, 2, 4),
        compare16(Word::X, Mode::Direct, 2, 6),
        memory(MemoryOp::Jsr, Mode::Direct, 2, 7),
        load16(Word::X, Mode::Direct, 2, 5),
        store16(Word::X, Mode::Direct, 2, 5),
    ]
}

// A, D and X, indexed.
pub fn row_a() -> [Option<Entry>; 16]
    ensures { result ≡ row_of Plain 0xA }
{
    [
        alu8(Alu::Sub, Acc::A, Mode::Indexed, 2, 4),
        alu8(Alu::Cmp, Acc::A, Mode::Indexed, 2, 4),
        alu8(Alu::Sbc, Acc::A, Mode::Indexed, 2, 4),
        registers(RegisterOp::Subd, Mode::Indexed, 2, 6),
        alu8(Alu::And, Acc::A, Mode::Indexed, 2, 4),
        alu8(Alu::Bit, Acc::A, Mode::Indexed, 2, 4),
        alu8(Alu::Ld, Acc::A, Mode::Indexed, 2, 4),
        memory(MemoryOp::Store8(Acc::A), Mode::Indexed, 2, 4),
        alu8(Alu::Eor, Acc::A, Mode::Indexed, 2, 4),
        alu8(Alu::Adc, Acc::A, Mode::Indexed, 2, 4),
        alu8(Alu::Or, Acc::A, Mode::Indexed, 2, 4),
        alu8(Alu::Add, Acc::A, Mode::Indexed, 2, 4),
        compare16(Word::X, Mode::Indexed, 2, 6),
        memory(MemoryOp::Jsr, Mode::Indexed, 2, 7),
        load16(Word::X, Mode::Indexed, 2, 5),
        store16(Word::X, Mode::Indexed, 2, 5),
    ]
}

// A, D and X, extended.
pub fn row_b() -> [Option<Entry>; 16]
    ensures { result ≡ row_of Plain 0xB }
{
    [
        alu8(Alu::Sub, Acc::A, Mode::Extended, 3, 5),
        alu8(Alu::Cmp, Acc::A, Mode::Extended, 3, 5),
        alu8(Alu::Sbc, Acc::A, Mode::Extended, 3, 5),
        registers(RegisterOp::Subd, Mode::Extended, 3, 7),
        alu8(Alu::And, Acc::A, Mode::Extended, 3, 5),
        alu8(Alu::Bit, Acc::A, Mode::Extended, 3, 5),
        alu8(Alu::Ld, Acc::A, Mode::Extended, 3, 5),
        memory(MemoryOp::Store8(Acc::A), Mode::Extended, 3, 5),
        alu8(Alu::Eor, Acc::A, Mode::Extended, 3, 5),
        alu8(Alu::Adc, Acc::A, Mode::Extended, 3, 5),
        alu8(Alu::Or, Acc::A, Mode::Extended, 3, 5),
        alu8(Alu::Add, Acc::A, Mode::Extended, 3, 5),
        compare16(Word::X, Mode::Extended, 3, 7),
        memory(MemoryOp::Jsr, Mode::Extended, 3, 8),
        load16(Word::X, Mode::Extended, 3, 6),
        store16(Word::X, Mode::Extended, 3, 6),
    ]
}

// B, D and U, immediate.
pub fn row_c() -> [Option<Entry>; 16]
    ensures { result ≡ row_of Plain 0xC }
{
    [
        alu8(Alu::Sub, Acc::B, Mode::Immediate8, 2, 2),
        alu8(Alu::Cmp, Acc::B, Mode::Immediate8, 2, 2),
        alu8(Alu::Sbc, Acc::B, Mode::Immediate8, 2, 2),
        registers(RegisterOp::Addd, Mode::Immediate16, 3, 4),
        alu8(Alu::And, Acc::B, Mode::Immediate8, 2, 2),
        alu8(Alu::Bit, Acc::B, Mode::Immediate8, 2, 2),
        alu8(Alu::Ld, Acc::B, Mode::Immediate8, 2, 2),
        None,
        alu8(Alu::Eor, Acc::B, Mode::Immediate8, 2, 2),
        alu8(Alu::Adc, Acc::B, Mode::Immediate8, 2, 2),
        alu8(Alu::Or, Acc::B, Mode::Immediate8, 2, 2),
        alu8(Alu::Add, Acc::B, Mode::Immediate8, 2, 2),
        load16(Word::D, Mode::Immediate16, 3, 3),
        None,
        load16(Word::U, Mode::Immediate16, 3, 3),
        None,
    ]
}

// B, D and U, direct.
pub fn row_d() -> [Option<Entry>; 16]
    ensures { result ≡ row_of Plain 0xD }
{
    [
        alu8(Alu::Sub, Acc::B, Mode::Direct, 2, 4),
        alu8(Alu::Cmp, Acc::B, Mode::Direct, 2, 4),
        alu8(Alu::Sbc, Acc::B, Mode::Direct, 2, 4),
        registers(RegisterOp::Addd, Mode::Direct, 2, 6),
        alu8(Alu::And, Acc::B, Mode::Direct, 2, 4),
        alu8(Alu::Bit, Acc::B, Mode::Direct, 2, 4),
        alu8(Alu::Ld, Acc::B, Mode::Direct, 2, 4),
        memory(MemoryOp::Store8(Acc::B), Mode::Direct, 2, 4),
        alu8(Alu::Eor, Acc::B, Mode::Direct, 2, 4),
        alu8(Alu::Adc, Acc::B, Mode::Direct, 2, 4),
        alu8(Alu::Or, Acc::B, Mode::Direct, 2, 4),
        alu8(Alu::Add, Acc::B, Mode::Direct, 2, 4),
        load16(Word::D, Mode::Direct, 2, 5),
        store16(Word::D, Mode::Direct, 2, 5),
        load16(Word::U, Mode::Direct, 2, 5),
        store16(Word::U, Mode::Direct, 2, 5),
    ]
}

// B, D and U, indexed.
pub fn row_e() -> [Option<Entry>; 16]
    ensures { result ≡ row_of Plain 0xE }
{
    [
        alu8(Alu::Sub, Acc::B, Mode::Indexed, 2, 4),
        alu8(Alu::Cmp, Acc::B, Mode::Indexed, 2, 4),
        alu8(Alu::Sbc, Acc::B, Mode::Indexed, 2, 4),
        registers(RegisterOp::Addd, Mode::Indexed, 2, 6),
        alu8(Alu::And, Acc::B, Mode::Indexed, 2, 4),
        alu8(Alu::Bit, Acc::B, Mode::Indexed, 2, 4),
        alu8(Alu::Ld, Acc::B, Mode::Indexed, 2, 4),
        memory(MemoryOp::Store8(Acc::B), Mode::Indexed, 2, 4),
        alu8(Alu::Eor, Acc::B, Mode::Indexed, 2, 4),
        alu8(Alu::Adc, Acc::B, Mode::Indexed, 2, 4),
        alu8(Alu::Or, Acc::B, Mode::Indexed, 2, 4),
        alu8(Alu::Add, Acc::B, Mode::Indexed, 2, 4),
        load16(Word::D, Mode::Indexed, 2, 5),
        store16(Word::D, Mode::Indexed, 2, 5),
        load16(Word::U, Mode::Indexed, 2, 5),
        store16(Word::U, Mode::Indexed, 2, 5),
    ]
}

// B, D and U, extended.
pub fn row_f() -> [Option<Entry>; 16]
    ensures { result ≡ row_of Plain 0xF }
{
    [
        alu8(Alu::Sub, Acc::B, Mode::Extended, 3, 5),
        alu8(Alu::Cmp, Acc::B, Mode::Extended, 3, 5),
        alu8(Alu::Sbc, Acc::B, Mode::Extended, 3, 5),
        registers(RegisterOp::Addd, Mode::Extended, 3, 7),
        alu8(Alu::And, Acc::B, Mode::Extended, 3, 5),
        alu8(Alu::Bit, Acc::B, Mode::Extended, 3, 5),
        alu8(Alu::Ld, Acc::B, Mode::Extended, 3, 5),
        memory(MemoryOp::Store8(Acc::B), Mode::Extended, 3, 5),
        alu8(Alu::Eor, Acc::B, Mode::Extended, 3, 5),
        alu8(Alu::Adc, Acc::B, Mode::Extended, 3, 5),
        alu8(Alu::Or, Acc::B, Mode::Extended, 3, 5),
        alu8(Alu::Add, Acc::B, Mode::Extended, 3, 5),
        load16(Word::D, Mode::Extended, 3, 6),
        store16(Word::D, Mode::Extended, 3, 6),
        load16(Word::U, Mode::Extended, 3, 6),
        store16(Word::U, Mode::Extended, 3, 6),
    ]
}
