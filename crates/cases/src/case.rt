// A case, and what is answered to it.
use answers::Refusal;
use std::num::TryFromIntError;
use u8oru16::u8u16;

// The number of a function, and the four words after it.
#[derive(Clone, Copy)]
pub struct Case {
    pub function: u8,
    pub words: [u16; 4],
}

// The three words of a result.
pub type Words = [u16; 3];

// Why there is no result: the line is no case, or the call refuses.
#[derive(Clone, Copy)]
pub enum Failure {
    BadCase,
    Refused(Refusal),
}

pub type Reply = Result<Words, Failure>;

impl From<Refusal> for Failure {
    fn from(refusal: Refusal) -> Self {
        Failure::Refused(refusal)
    }
}

// Of a word that has to be a byte.
impl From<TryFromIntError> for Failure {
    fn from(_wide: TryFromIntError) -> Self {
        Failure::BadCase
    }
}

// What one word shows, and a digest in the two others: no method splits a number into words.
pub fn digested(shown: u16, digest: u32) -> Words {
    [shown, (digest / 0x10000) as u16, (digest % 0x10000) as u16]
}

pub fn single(shown: u16) -> Words {
    [shown, 0, 0]
}

// A value in two words, and a third beside it. The enum is taken apart here: `size` and `u16` are themselves among the functions compared.
pub fn sized(v: u8u16, beside: u16) -> Words {
    match v {
        u8u16::u8(b) => [1, b as u16, beside],
        u8u16::u16(w) => [2, w, beside],
    }
}

// The byte at an index of a name: 00 past its end.
pub fn letter_at(name: &[u8], index: u16) -> u16 {
    name.get(index as usize).map_or(0, |b| *b as u16)
}
