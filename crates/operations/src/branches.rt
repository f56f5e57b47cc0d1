// Branches and jumps: `ea` is the address that is branched to.
ghost use Rattle.std.specs.Prelude.{◌≡◌};
ghost use Rattle.operations.specs.Branches.{less, condition, branched, jumped};

use opcodes::Cond;
use registers::{CCBit, CCBits, Set};

// N exclusive-or V: a signed comparison gave less.
fn is_less(cc: CCBits) -> bool
    ensures { result ≡ less cc }
{
    cc.is_set(CCBit::N) ^ cc.is_set(CCBit::V)
}

// Whether a branch is taken.
pub fn condition(cc: CCBits, cond: Cond) -> bool
    ensures { result ≡ condition cond cc }
{
    match cond {
        Cond::Ra => true,
        Cond::Rn => false,
        Cond::Hi => !(cc.is_set(CCBit::C) | cc.is_set(CCBit::Z)),
        Cond::Ls => cc.is_set(CCBit::C) | cc.is_set(CCBit::Z),
        Cond::Cc => !cc.is_set(CCBit::C),
        Cond::Cs => cc.is_set(CCBit::C),
        Cond::Ne => !cc.is_set(CCBit::Z),
        Cond::Eq => cc.is_set(CCBit::Z),
        Cond::Vc => !cc.is_set(CCBit::V),
        Cond::Vs => cc.is_set(CCBit::V),
        Cond::Pl => !cc.is_set(CCBit::N),
        Cond::Mi => cc.is_set(CCBit::N),
        Cond::Ge => !is_less(cc),
        Cond::Lt => is_less(cc),
        Cond::Gt => !(cc.is_set(CCBit::Z) | is_less(cc)),
        Cond::Le => cc.is_set(CCBit::Z) | is_less(cc),
    }
}

pub fn jump(regs: Set, ea: u16) -> Set
    ensures { result ≡ jumped regs ea }
{
    regs.with_pc(ea)
}

pub fn branch(regs: Set, cond: Cond, ea: u16) -> Set
    ensures { result ≡ branched cond regs ea }
{
    if condition(regs.cc, cond) {
        jump(regs, ea)
    } else {
        regs
    }
}
