// Branches: `ea` is the address that is branched to.
ghost use Rattle.std.specs.Prelude.{◌≡◌, ◌||◌};
ghost use Rattle.registers.specs.ConditionCodes.{flag};
ghost use Rattle.registers.specs.declared.CCBit.TheVariants.{C, Z};
ghost use Rattle.operations.specs.Branches.{less, condition, branched};

use opcodes::Cond;
use operations::jump;
use registers::{CCBit, CCBits, Set};
use whole::is_set;

// After a comparison: the unsigned number was lower or the same.
fn is_lower_or_same(cc: CCBits) -> bool
    ensures { result ≡ (flag C cc || flag Z cc) }
{
    is_set(cc, CCBit::C) | is_set(cc, CCBit::Z)
}

// After a comparison: the signed number was less. An overflow turns the sign of the difference round.
fn is_less(cc: CCBits) -> bool
    ensures { result ≡ less cc }
{
    is_set(cc, CCBit::N) ^ is_set(cc, CCBit::V)
}

fn is_less_or_equal(cc: CCBits) -> bool
    ensures { result ≡ (flag Z cc || less cc) }
{
    is_set(cc, CCBit::Z) | is_less(cc)
}

// Whether a branch is taken. The conditions come in pairs, each the opposite of the other.
pub fn condition(cc: CCBits, cond: Cond) -> bool
    ensures { result ≡ condition cond cc }
{
    match cond {
        Cond::Ra => true,
        Cond::Rn => false,
        Cond::Hi => !is_lower_or_same(cc),
        Cond::Ls => is_lower_or_same(cc),
        Cond::Cc => !is_set(cc, CCBit::C),
        Cond::Cs => is_set(cc, CCBit::C),
        Cond::Ne => !is_set(cc, CCBit::Z),
        Cond::Eq => is_set(cc, CCBit::Z),
        Cond::Vc => !is_set(cc, CCBit::V),
        Cond::Vs => is_set(cc, CCBit::V),
        Cond::Pl => !is_set(cc, CCBit::N),
        Cond::Mi => is_set(cc, CCBit::N),
        Cond::Ge => !is_less(cc),
        Cond::Lt => is_less(cc),
        Cond::Gt => !is_less_or_equal(cc),
        Cond::Le => is_less_or_equal(cc),
    }
}

pub fn branch(regs: Set, cond: Cond, ea: u16) -> Set
    ensures { result ≡ branched cond regs ea }
{
    if condition(regs.cc, cond) {
        jump(regs, ea)
    } else {
        regs
    }
}
