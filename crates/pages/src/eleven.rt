// Page 11 of the opcode table, the opcodes after a byte 11.
ghost use Rattle.std.specs.Prelude.{◌≡◌};
ghost use Rattle.opcodes.specs.Manual.{entry_of};
ghost use Rattle.opcodes.specs.declared.Page.TheVariants.{Eleven};

use opcodes::{Entry, MemoryOp, Mode, Software, compare16, memory};
use registers::Word;

// The place of a byte: SWI3, and CMPU and CMPS, immediate, direct, indexed and extended. The page has nine places, which are told one by one: of
// its rows of sixteen the compiler would make all five, with each place empty, before it reads one place of one row.
pub fn place(code: u8) -> Option<Entry>
    ensures { result ≡ entry_of Eleven code }
{
    match code {
        0x3F => memory(MemoryOp::Swi(Software::Swi3), Mode::Inherent, 2, 20),
        0x83 => compare16(Word::U, Mode::Immediate16, 4, 5),
        0x8C => compare16(Word::S, Mode::Immediate16, 4, 5),
        0x93 => compare16(Word::U, Mode::Direct, 3, 7),
        0x9C => compare16(Word::S, Mode::Direct, 3, 7),
        0xA3 => compare16(Word::U, Mode::Indexed, 3, 7),
        0xAC => compare16(Word::S, Mode::Indexed, 3, 7),
        0xB3 => compare16(Word::U, Mode::Extended, 4, 8),
        0xBC => compare16(Word::S, Mode::Extended, 4, 8),
        _ => None,
    }
}
