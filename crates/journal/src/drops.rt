// Drop: the oldest records are forgotten, and the rest is moved to the front.
ghost use Rattle.std.specs.Prelude.{◌+◌, ◌≤◌, ◌≡◌, length, take, drop};
ghost use Rattle.std.proofs.lemmas.List.Edits.{sets};
ghost use Rattle.journal.specs.Recorded.{in_hand, LeavesEach};
ghost use Rattle.journal.specs.Drops.{walk_of, dropped};

use super::recorded::refused;
use super::{COUNT, ENTRIES, MOST, Outcome, Twin, record_length};
use answers::Refusal;
use memory::Writes;

// Steps over the k oldest records by their counts. Each is judged by differences, so that no sum can wrap; the walk ends within the bytes
// used, whatever k is.
fn walk(journal: &[u8], bytes: usize, k: usize) -> Option<usize>
    requires { bytes ≤ length journal.now }
    ensures { result ≡ walk_of journal.now bytes k }
{
    let mut at = 0;
    for _ in 0..k {
        if bytes - at < ENTRIES {
            return None;
        }
        let n = journal[at + COUNT] as usize;
        if n > MOST {
            return None;
        }
        let size = record_length(n);
        if bytes - at < size {
            return None;
        }
        at += size;
    }
    Some(at)
}

// Moves n bytes from `at` on to the front; the two may overlap.
fn shift(journal: &mut [u8], at: usize, n: usize)
    requires { at + n ≤ length journal.old }
    ensures { journal.new ≡ sets journal.old 0 (take n (drop at journal.old)) }
{
    journal.copy_within(at..at + n, 0);
}

// The oldest k records are forgotten. No memory is lent: whatever memory the twin has, it stays.
pub fn drop(journal: &mut [u8], twin: Twin, k: usize) -> Outcome
    ensures { LeavesEach result journal.new (λ memory. dropped k (in_hand memory journal.old twin)) }
{
    let bytes = twin.bytes;
    if bytes > journal.len() {
        return refused(twin, Refusal::JournalLength);
    }
    if k > twin.records {
        return refused(twin, Refusal::TooFewRecords);
    }
    let Some(at) = walk(journal, bytes, k) else {
        return refused(twin, Refusal::JournalLength);
    };
    let left = bytes - at;
    shift(journal, at, left);
    Outcome {
        devices: Writes::none(),
        twin: Twin {
            records: twin.records - k,
            bytes: left,
            ..twin
        },
        reads: 0,
        writes: 0,
        answer: Ok(()),
    }
}
