// The journal: recorded calls, undo, the newest record, and drop. A record holds the machine and the bytes of memory from before a call.
#![tactic(auto)]

mod drops;
mod recorded;
mod told;
mod undos;

ghost use Rattle.std.specs.Prelude.{◌+◌, ◌^◌, ◌≤◌, ◌<◌, ◌≡◌};
ghost use Rattle.journal.specs.Record.{most_stored, record_length};
ghost use Rattle.journal.specs.Recorded.{fresh_twin, most_records};

use answers::Refusal;
use calls::InterruptType;
pub use drops::drop;
use machine::{HEADER, Machine};
use memory::Writes;
pub use recorded::{call, interrupt, record_plan, reset};
pub use told::step;
pub use undos::{newest, undo};

// Where the count and the entries stand; an entry is a place and the byte that it had.
const COUNT: usize = HEADER;

const ENTRIES: usize = COUNT + 1;

const ENTRY: usize = 3;

const MOST: usize = 12;

// The length of a record with n entries. `n ≤ most_stored` stays a clause: n is a sum or a byte that was read, and is used as a number.
fn record_length(n: usize) -> usize
    requires { n ≤ most_stored }
    ensures { result ≡ record_length n }
{
    ENTRIES + n * ENTRY + 1
}

// A machine, how many records its journal holds, and how many bytes they use.
#[derive(Clone, Copy)]
pub struct Twin {
    pub machine: Machine,
    pub records: usize,
    pub bytes: usize,
}

// What a call returns: the device writes that it reports, the machine and the counts after it, how many bytes it read and wrote, its
// answer. The answer stands beside the twin, and not around it: a refused call gives back the twin that it was given (crates/history:
// `refused-call`).
#[derive(Clone, Copy)]
pub struct Outcome {
    pub devices: Writes,
    pub twin: Twin,
    pub reads: u8,
    pub writes: u8,
    pub answer: Result<(), Refusal>,
}

// The calls that are recorded.
#[derive(Clone, Copy)]
pub enum CallType {
    Step,
    Interrupt(InterruptType),
    Reset,
}

impl Twin {
    // A fresh machine, and no record.
    pub fn fresh() -> Twin
        ensures { result ≡ fresh_twin }
    {
        Twin {
            machine: Machine::fresh(),
            records: 0,
            bytes: 0,
        }
    }

    // The twin with this machine and one more record, of this size.
    fn after(self, machine: Machine, size: usize) -> Twin
        requires { (self.records < most_records) × (self.bytes + size < 2 ^ 64) }
        ensures { result ≡ record { machine = machine; records = self.records + 1; bytes = self.bytes + size } }
    {
        Twin {
            machine,
            records: self.records + 1,
            bytes: self.bytes + size,
        }
    }
}
