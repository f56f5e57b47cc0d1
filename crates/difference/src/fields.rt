// The fields of two machines that differ, in the record's order.
ghost use Rattle.std.specs.Prelude.{cond, map, ◌≡◌, ◌+◌, ◌*◌, ◌≤◌, eqb, length};
ghost use Rattle.std.proofs.lemmas.List.Edits.{sets};
ghost use Rattle.machine.specs.Record.{Field, fields, field_of};
ghost use Rattle.difference.specs.Differences.{fields_apart};
ghost use Rattle.difference.specs.Compare.{entry_bytes, entry_size, laid_out};

use super::entries::{ENTRY, Entry, RUN};
use machine::Machine;

const FIELDS: usize = RUN as usize;

fn values_of(machine: Machine) -> [u64; FIELDS]
    ensures { result ≡ map (λ (f : Field). field_of f machine) fields }
{
    let regs = machine.regs;
    [
        regs.a as u64,
        regs.b as u64,
        regs.x as u64,
        regs.y as u64,
        regs.u as u64,
        regs.s as u64,
        regs.pc as u64,
        regs.dp as u64,
        regs.cc.reg as u64,
        machine::wait_byte(machine.wait) as u64,
        machine::mark_byte(machine.armed) as u64,
        machine.cycles,
        machine.instructions,
    ]
}

// Counted apart from `put`, as the runs are: a list that is too short has to stay unchanged.
pub(super) fn count(left: Machine, right: Machine) -> usize
    ensures { result ≡ length (fields_apart fields left right) }
{
    let left = values_of(left);
    let right = values_of(right);
    left.iter().zip(&right).filter(|(l, r)| l != r).count()
}

// An entry where the two values differ, and the place after it.
fn put_one(list: &mut [u8], at: usize, entry: Entry) -> usize
    requires { at ≤ 0x1000 }
    ensures { (result ≡ at + cond (eqb entry.left entry.right) 0 entry_size) × (list.new ≡ cond (eqb entry.left entry.right) list.old (sets list.old at (entry_bytes entry))) }
{
    if entry.left == entry.right {
        return at;
    }
    entry.put(list, at);
    at + ENTRY
}

// Writes the entries from the front of the list on, and returns the place after them.
pub(super) fn put(list: &mut [u8], left: Machine, right: Machine) -> usize
    ensures { (result ≡ entry_size * length (fields_apart fields left right)) × (list.new ≡ sets list.old 0 (laid_out (fields_apart fields left right))) }
{
    let l = values_of(left);
    let r = values_of(right);
    let mut at = 0;
    // The number is told too, so that a zip of both would have to count it besides.
    for what in 0..RUN {
        let left = l[what as usize];
        let right = r[what as usize];
        at = put_one(list, at, Entry { left, right, what });
    }
    at
}
