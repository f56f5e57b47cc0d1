// The runs of addresses at which two memories differ. The bytes from `first` up to `i` differ: this run is open, and the next byte that is
// equal ends it.
ghost use Rattle.std.specs.Prelude.{◌≡◌, ◌+◌, ◌*◌, ◌≤◌, length};
ghost use Rattle.std.proofs.lemmas.List.Edits.{sets};
ghost use Rattle.difference.specs.Differences.{run_up_to, runs};
ghost use Rattle.difference.specs.Compare.{entry_size, laid_out};

use super::entries::{ENTRY, Entry, RUN};

// Counted apart from `put`, as the fields are: a list that is too short has to stay unchanged.
pub(super) fn count(a: &[u8], b: &[u8]) -> usize
    requires { (length a.now ≡ 65536) × (length b.now ≡ 65536) }
    ensures { result ≡ length (runs a.now b.now) }
{
    let mut n = 0;
    let mut first = 0;
    for (i, x) in a.iter().enumerate() {
        if *x == b[i] {
            n += (first < i) as usize;
            first = i + 1;
        }
    }
    n + (first < a.len()) as usize
}

// The run from `first` up to before `end`, if it has any address, and the place after its entry.
// Not one function with that of the fields: a run is told if it isn't empty, a field if it differs.
fn put_one(list: &mut [u8], at: usize, first: usize, end: usize) -> usize
    requires { at ≤ 0x100_0000 }
    ensures { (result ≡ at + entry_size * length (run_up_to first end)) × (list.new ≡ sets list.old at (laid_out (run_up_to first end))) }
{
    if first < end {
        let entry = Entry {
            left: first as u64,
            right: (end - 1) as u64,
            what: RUN,
        };
        entry.put(list, at);
        return at + ENTRY;
    }
    at
}

// Writes the entries from a place on.
pub(super) fn put(list: &mut [u8], from: usize, a: &[u8], b: &[u8])
    requires { (from ≤ 0x1000) × ((length a.now ≡ 65536) × (length b.now ≡ 65536)) }
    ensures { list.new ≡ sets list.old from (laid_out (runs a.now b.now)) }
{
    let mut at = from;
    let mut first = 0;
    for (i, x) in a.iter().enumerate() {
        if *x == b[i] {
            at = put_one(list, at, first, i);
            first = i + 1;
        }
    }
    put_one(list, at, first, a.len());
}
