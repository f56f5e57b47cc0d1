// The registers' names: their letters and sizes; and Word, Index and Stack, which name some of the registers, turned into names of the set.
ghost use Rattle.std.specs.Prelude.{◌≡◌};
ghost use Rattle.registers.specs.Names.{register_size, register_text, word_name, index_word, stack_word, other_stack};

use crate::{Index, Name, Stack, Word};

impl Name {
    pub fn to_str(self) -> &'static str
        ensures { result.now ≡ register_text self }
    {
        match self {
            Name::A => "A",
            Name::B => "B",
            Name::D => "D",
            Name::X => "X",
            Name::Y => "Y",
            Name::U => "U",
            Name::S => "S",
            Name::PC => "PC",
            Name::DP => "DP",
            Name::CC => "CC",
        }
    }
}

pub fn reg_size(reg: Name) -> u16
    ensures { result ≡ register_size reg }
{
    match reg {
        Name::A | Name::B | Name::DP | Name::CC => 1,
        Name::D | Name::X | Name::Y | Name::U | Name::S | Name::PC => 2,
    }
}

// Methods and no `From`: `stack.word().name()` says which of the three kinds of names each step gives.
impl Word {
    pub fn name(self) -> Name
        ensures { result ≡ word_name self }
    {
        match self {
            Word::D => Name::D,
            Word::X => Name::X,
            Word::Y => Name::Y,
            Word::U => Name::U,
            Word::S => Name::S,
        }
    }
}

impl Index {
    pub fn word(self) -> Word
        ensures { result ≡ index_word self }
    {
        match self {
            Index::X => Word::X,
            Index::Y => Word::Y,
            Index::U => Word::U,
            Index::S => Word::S,
        }
    }
}

impl Stack {
    pub fn word(self) -> Word
        ensures { result ≡ stack_word self }
    {
        match self {
            Stack::S => Word::S,
            Stack::U => Word::U,
        }
    }

    // The stack pointer that bit 6 of a post-byte names: U for PSHS and PULS, S for PSHU and PULU.
    pub fn other(self) -> Stack
        ensures { result ≡ other_stack self }
    {
        match self {
            Stack::S => Stack::U,
            Stack::U => Stack::S,
        }
    }
}
