// An entry of the list: what differs, and two numbers.
ghost use Rattle.std.specs.Prelude.{◌≡◌, ◌≤◌};
ghost use Rattle.std.proofs.lemmas.List.Edits.{sets};
ghost use Rattle.difference.specs.Compare.{entry_bytes, entry_at};

// The bytes of an entry: what, and two numbers of eight bytes.
pub const ENTRY: usize = 17;

// What a run of memory is; below it are the machine's fields.
pub const RUN: u8 = 13;

#[derive(Clone, Copy, PartialEq, Eq, Debug, Default)]
pub struct Entry {
    pub left: u64,
    pub right: u64,
    // A number, not an enum: `entry_at` promises whatever byte is in the list.
    pub what: u8,
}

impl Entry {
    // Writes the entry at a place.
    // The bound, which is far above every list, keeps the sum of place and length from wrapping.
    pub(super) fn put(self, list: &mut [u8], at: usize)
        requires { at ≤ 0x100_0000 }
        ensures { list.new ≡ sets list.old at (entry_bytes self) }
    {
        text::put(list, at, &[self.what]);
        text::put(list, at + 1, &machine::counter_of(self.left));
        text::put(list, at + 9, &machine::counter_of(self.right));
    }
}

// The k-th entry of a list. There is no refusal: past the last whole entry all is 0, as the contract promises (`entry_at`).
pub fn entry_at(list: &[u8], k: usize) -> Entry
    ensures { result ≡ entry_at list.now k }
{
    if k < list.len() / ENTRY {
        let entry = &list[ENTRY * k..];
        return Entry {
            left: machine::counter_at(entry, 1),
            right: machine::counter_at(entry, 9),
            what: entry[0],
        };
    }
    Entry::default()
}
