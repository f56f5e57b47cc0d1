// Undo, and the newest record as a part of the journal.
ghost use Rattle.std.specs.Prelude.{◌≡◌, ◌+◌, ◌*◌, ◌≤◌, length, drop};
ghost use Rattle.journal.specs.Record.{most_stored, entries_at, entry_length, record_length, read_entries, is_record};
ghost use Rattle.journal.specs.Recorded.{in_hand, Typed, Leaves};
ghost use Rattle.journal.specs.Undos.{newest_of, newest_from, put_back, undone};

use super::recorded::refused;
use super::{COUNT, ENTRIES, ENTRY, MOST, Outcome, Twin, record_length};
use answers::Refusal;
use machine::{ARMED, WAIT};
use memory::Writes;

// The shortest record, which has no entry.
const SHORTEST: usize = ENTRIES + 1;

// What is judged of bytes, as many as the last of them says.
fn is_record(r: &[u8]) -> bool
    requires { record_length 0 ≤ length r.now }
    ensures { result ≡ is_record r.now }
{
    let n = r[COUNT] as usize;
    if n > MOST {
        return false;
    }
    (r.len() == record_length(n)) & ((r[WAIT] <= 2) & (r[ARMED] <= 1))
}

// The newest record, as a part of the journal; an empty part where no whole record is there, and no None: `newest_of` promises it so.
pub fn newest(journal: &[u8], records: usize, bytes: usize) -> &[u8]
    ensures result_value { result.now ≡ newest_of journal.now records bytes }
    ensures ref_ptr_value { result.ref_ptr ≡ (journal.entry.ref_ptr.0, newest_from journal.now records bytes + journal.entry.ref_ptr.1) }
{
    if bytes > journal.len() {
        return &journal[..0];
    }
    if records == 0 {
        return &journal[..0];
    }
    if bytes == 0 {
        return &journal[..0];
    }
    let size = journal[bytes - 1] as usize;
    if size < SHORTEST {
        return &journal[..0];
    }
    if size > bytes {
        return &journal[..0];
    }
    let at = bytes - size;
    let r = &journal[at..bytes];
    if is_record(r) {
        return r;
    }
    &journal[..0]
}

// The old bytes of a record's first n entries, put back raw, last entry first.
fn put_back(mem: &mut [u8], r: &[u8], n: usize)
    requires { (length mem.old ≡ 65536) × ((entries_at + n * entry_length ≤ length r.now) × (n ≤ most_stored)) }
    ensures { mem.new ≡ put_back mem.old (read_entries n (drop entries_at r.now)) }
{
    for k in 0..n {
        let at = ENTRIES + (n - (k + 1)) * ENTRY;
        let place = u16::from_be_bytes([r[at], r[at + 1]]);
        mem[place as usize] = r[at + 2];
    }
}

// The newest record is taken back. The journal's bytes stay, and its room is used by the next record.
pub fn undo(mem: &mut [u8], journal: &[u8], twin: Twin) -> Outcome
    ensures leaves { Leaves result mem.new journal.now (undone (in_hand mem.old journal.now twin)) }
    ensures typed { Typed (in_hand mem.old journal.now twin) }
{
    if mem.len() != 65536 {
        return refused(twin, Refusal::MemoryLength);
    }
    if twin.bytes > journal.len() {
        return refused(twin, Refusal::JournalLength);
    }
    if twin.records == 0 {
        return refused(twin, Refusal::NoRecord);
    }
    let r = newest(journal, twin.records, twin.bytes);
    if r.is_empty() {
        return refused(twin, Refusal::JournalLength);
    }
    put_back(mem, r, r[COUNT] as usize);
    Outcome {
        devices: Writes::none(),
        twin: Twin {
            machine: machine::machine_of(r),
            records: twin.records - 1,
            bytes: twin.bytes - r.len(),
        },
        reads: 0,
        writes: 0,
        answer: Ok(()),
    }
}
