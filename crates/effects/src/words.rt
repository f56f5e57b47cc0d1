// Operations on words: LD, ST, CMP, ADDD, SUBD, LEA.
// `test` and `store` stand beside those of bytes: each line of them calls what has its size, so that one for both would be no shorter.
ghost use Rattle.std.specs.Prelude.{◌≡◌};
ghost use Rattle.operations.specs.Words.{tested16, with_zero, load16, store16, compare16, add_d, subtract_d, load_address};

use machine::Effect;
use memory::Writes;
use operations::with_codes;
use registers::{CCBit, Index, Set, Word};

fn test(regs: Set, m: u16) -> Set
    ensures { result ≡ tested16 regs m }
{
    with_codes(regs, whole::test_word(regs.cc, m))
}

pub fn load(mem: &[u8], regs: Set, word: Word, ea: u16) -> Set
    ensures { result ≡ load16 mem.now regs word ea }
{
    let m = memory::read_u16(mem, ea);
    test(regs, m).with_word(word, m)
}

pub fn store(regs: Set, word: Word, ea: u16) -> Effect
    ensures { result ≡ store16 regs word ea }
{
    let value = regs.word(word);
    Effect::stores(test(regs, value), Writes::none().add_word(ea, value, false))
}

pub fn compare(mem: &[u8], regs: Set, word: Word, ea: u16) -> Set
    ensures { result ≡ compare16 mem.now regs word ea }
{
    let m = memory::read_u16(mem, ea);
    with_codes(regs, whole::compare_words(regs.cc, regs.word(word), m))
}

pub fn add_to_d(mem: &[u8], regs: Set, ea: u16) -> Set
    ensures { result ≡ add_d mem.now regs ea }
{
    let m = memory::read_u16(mem, ea);
    let out = whole::add_words(regs.cc, regs.word(Word::D), m);
    with_codes(regs, out.cc).with_word(Word::D, out.value)
}

// Beside `add_to_d`: the two part in one call, and a closure for it would be as long.
pub fn subtract_from_d(mem: &[u8], regs: Set, ea: u16) -> Set
    ensures { result ≡ subtract_d mem.now regs ea }
{
    let m = memory::read_u16(mem, ea);
    let out = whole::subtract_words(regs.cc, regs.word(Word::D), m);
    with_codes(regs, out.cc).with_word(Word::D, out.value)
}

fn with_zero(regs: Set, ea: u16) -> Set
    ensures { result ≡ with_zero regs ea }
{
    with_codes(regs, whole::put(regs.cc, CCBit::Z, ea == 0))
}

// LEAX and LEAY set Z; LEAS and LEAU no flag.
pub fn load_address(regs: Set, index: Index, ea: u16) -> Set
    ensures { result ≡ load_address index regs ea }
{
    let tested = match index {
        Index::X | Index::Y => with_zero(regs, ea),
        Index::U | Index::S => regs,
    };
    tested.with_word(index.word(), ea)
}
