// Row 2: a branch for each condition, short on the plain page and long after a byte 10.
ghost use Rattle.std.specs.Prelude.{◌≡◌};
ghost use Rattle.fields.specs.Named.{one_of_pair, branch_condition, short_branch, long_branch};

use super::entries::entry_at;
use opcodes::{Cond, Entry, Mode, Op, Page, RegisterOp};

// Bit 0 chooses the second of a pair, which is taken exactly where the first is not.
fn one_of_pair(column: u8, first: Cond, second: Cond) -> Cond
    ensures { result ≡ one_of_pair column first second }
{
    if column % 2 == 0 { first } else { second }
}

// Bits 3 to 1 name the pair.
fn condition(column: u8) -> Cond
    ensures { result ≡ branch_condition column }
{
    match column >> 1 {
        0 => one_of_pair(column, Cond::Ra, Cond::Rn),
        1 => one_of_pair(column, Cond::Hi, Cond::Ls),
        2 => one_of_pair(column, Cond::Cc, Cond::Cs),
        3 => one_of_pair(column, Cond::Ne, Cond::Eq),
        4 => one_of_pair(column, Cond::Vc, Cond::Vs),
        5 => one_of_pair(column, Cond::Pl, Cond::Mi),
        6 => one_of_pair(column, Cond::Ge, Cond::Lt),
        _ => one_of_pair(column, Cond::Gt, Cond::Le),
    }
}

pub fn short(column: u8) -> Option<Entry>
    ensures { result ≡ short_branch column }
{
    let op = Op::Registers(RegisterOp::Branch(condition(column)));
    entry_at(Page::Plain, op, Mode::Relative8, 3)
}

// Long branches stand after a byte 10. The one that is always taken, LBRA, has no prefix: it is 16, in row 1.
pub fn long(page: Page, column: u8) -> Option<Entry>
    ensures { result ≡ long_branch page column }
{
    match page {
        Page::Ten if column != 0 => {
            let op = Op::Registers(RegisterOp::Branch(condition(column)));
            entry_at(page, op, Mode::Relative16, 4)
        }
        _ => None,
    }
}
