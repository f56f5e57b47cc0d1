// Where two machines with their memories differ: a list of entries, the machine's fields in the record's order and then the runs of memory.
// The layout is in docs/COMPARE.md.
#![tactic(auto)]

mod entries;
mod fields;
mod runs;

ghost use Rattle.std.specs.Prelude.{◌≡◌};
ghost use Rattle.difference.specs.Compare.{compared, list_after};

use answers::Refusal;
pub use entries::{ENTRY, Entry, RUN, entry_at};
use machine::Machine;

const MEMORY: usize = 0x10000;

// Writes the entries to the front of the list, and returns how many they are. They are counted before the first is written, so that a short list
// stays unchanged.
pub fn compare(
    left: Machine,
    left_mem: &[u8],
    right: Machine,
    right_mem: &[u8],
    list: &mut [u8],
) -> Result<usize, Refusal>
    ensures { (result ≡ compared left left_mem.now right right_mem.now list.old) × (list.new ≡ list_after left left_mem.now right right_mem.now list.old) }
{
    if left_mem.len() != MEMORY || right_mem.len() != MEMORY {
        return Err(Refusal::MemoryLength);
    }
    let count = fields::count(left, right) + runs::count(left_mem, right_mem);
    if list.len() < ENTRY * count {
        return Err(Refusal::ListShort);
    }
    let at = fields::put(list, left, right);
    runs::put(list, at, left_mem, right_mem);
    Ok(count)
}
