// Operations on words: LD, ST, CMP (16-Bit), ADDD, SUBD, LEA.
// `test16` and `store16` stand beside those of bytes: each line of them calls what has its size, so that one for both would be no shorter.
ghost use Rattle.std.specs.Prelude.{◌≡◌};
ghost use Rattle.operations.specs.Words.{tested16, load16, store16, compare16, add_d, subtract_d, load_address};

use super::codes::with_codes;
use machine::Effect;
use memory::Writes;
use registers::{CCBit, Index, Set, Word};

pub fn test16(regs: Set, m: u16) -> Set
    ensures { result ≡ tested16 regs m }
{
    with_codes(regs, regs.cc.tst_u16(m))
}

pub fn load16(mem: &[u8], regs: Set, word: Word, ea: u16) -> Set
    ensures { result ≡ load16 mem.now regs word ea }
{
    let m = memory::read_u16(mem, ea);
    test16(regs, m).with_word(word, m)
}

pub fn store16(regs: Set, word: Word, ea: u16) -> Effect
    ensures { result ≡ store16 regs word ea }
{
    let value = regs.word(word);
    Effect::stores(
        test16(regs, value),
        Writes::none().add_word(ea, value, false),
    )
}

pub fn compare16(mem: &[u8], regs: Set, word: Word, ea: u16) -> Set
    ensures { result ≡ compare16 mem.now regs word ea }
{
    let m = memory::read_u16(mem, ea);
    with_codes(regs, regs.cc.cmp_u16(regs.word(word), m))
}

pub fn add_d(mem: &[u8], regs: Set, ea: u16) -> Set
    ensures { result ≡ add_d mem.now regs ea }
{
    let m = memory::read_u16(mem, ea);
    let out = regs.cc.add_u16(regs.word(Word::D), m);
    with_codes(regs, out.cc).with_word(Word::D, out.value)
}

// Beside `add_d`: the two part in one call, and a closure for it would be as long.
pub fn subtract_d(mem: &[u8], regs: Set, ea: u16) -> Set
    ensures { result ≡ subtract_d mem.now regs ea }
{
    let m = memory::read_u16(mem, ea);
    let out = regs.cc.sub_u16(regs.word(Word::D), m);
    with_codes(regs, out.cc).with_word(Word::D, out.value)
}

// LEAX and LEAY set Z; LEAS and LEAU no flag.
pub fn load_address(regs: Set, index: Index, ea: u16) -> Set
    ensures { result ≡ load_address index regs ea }
{
    let tested = match index {
        Index::X | Index::Y => with_codes(regs, regs.cc.set(CCBit::Z, ea == 0)),
        Index::U | Index::S => regs,
    };
    tested.with_word(index.word(), ea)
}
