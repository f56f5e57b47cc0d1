// The condition code register as a whole: ANDCC, ORCC.
ghost use Rattle.std.specs.Prelude.{◌≡◌};
ghost use Rattle.operations.specs.Codes.{with_codes, and_codes, or_codes};

use registers::{CCBits, Set};

pub fn with_codes(mut regs: Set, cc: CCBits) -> Set
    ensures { result ≡ with_codes regs cc }
{
    regs.cc = cc;
    regs
}

pub fn and_codes(regs: Set, m: u8) -> Set
    ensures { result ≡ and_codes regs m }
{
    with_codes(regs, CCBits::set_from_byte(regs.cc.get_as_byte() & m))
}

// Beside `and_codes`: the operator is all that each says.
pub fn or_codes(regs: Set, m: u8) -> Set
    ensures { result ≡ or_codes regs m }
{
    with_codes(regs, regs.cc.or_with_byte(m))
}
