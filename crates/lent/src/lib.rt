// The machine lent by its owner: step and undo on a twin behind a `&mut`, over the recorded calls on values.
// Each is three lines: every test and every refusal is in the call on values. Step and undo stay apart: the one writes the journal that the
// other only reads, so that a closure for the call between would be longer than they are.
#![tactic(auto)]

ghost use Rattle.journal.specs.Recorded.{in_hand, Typed, stepped};
ghost use Rattle.journal.specs.Undos.{undone};
ghost use Rattle.std.specs.Prelude.{◌≡◌};
ghost use Rattle.lent.specs.Lending.{parts, Returns, LeavesTwin};

use answers::Refusal;
use journal::{Outcome, Twin};
use machine::Settings;
use memory::Writes;

// What a call returns once the twin is written back: the device writes that it reports, how many bytes it read and wrote, and its answer.
// The answer stands beside them, as in an `Outcome`: it tells a refusal of the same report (specs/Lending.antt: `report_of`).
#[derive(Clone, Copy)]
pub struct Reported {
    pub devices: Writes,
    pub reads: u8,
    pub writes: u8,
    pub answer: Result<(), Refusal>,
}

// The same with the twin, on values.
#[derive(Clone, Copy)]
pub struct Returned {
    pub reported: Reported,
    pub twin: Twin,
}

impl From<Outcome> for Returned {
    ghost from_gives = { λ o r. r ≡ parts o };

    fn from(outcome: Outcome) -> Returned {
        Returned {
            reported: Reported {
                devices: outcome.devices,
                reads: outcome.reads,
                writes: outcome.writes,
                answer: outcome.answer,
            },
            twin: outcome.twin,
        }
    }
}

fn step_value(twin: Twin, mem: &mut [u8], journal: &mut [u8], settings: Settings) -> Returned
    ensures { Returns result mem.new journal.new (stepped settings (in_hand mem.old journal.old twin)) × Typed (in_hand mem.old journal.old twin) }
{
    Returned::from(journal::step(mem, journal, twin, settings))
}

fn undo_value(twin: Twin, mem: &mut [u8], journal: &[u8]) -> Returned
    ensures { Returns result mem.new journal.now (undone (in_hand mem.old journal.now twin)) × Typed (in_hand mem.old journal.now twin) }
{
    Returned::from(journal::undo(mem, journal, twin))
}

// The recorded step of a lent twin.
pub fn step(twin: &mut Twin, mem: &mut [u8], journal: &mut [u8], settings: Settings) -> Reported
    ensures { LeavesTwin result twin.new mem.new journal.new (stepped settings (in_hand mem.old journal.old twin.old)) × Typed (in_hand mem.old journal.old twin.old) }
{
    let done = step_value(*twin, mem, journal, settings);
    *twin = done.twin;
    done.reported
}

// The newest recorded call of a lent twin is taken back. The journal is only read.
pub fn undo(twin: &mut Twin, mem: &mut [u8], journal: &[u8]) -> Reported
    ensures { LeavesTwin result twin.new mem.new journal.now (undone (in_hand mem.old journal.now twin.old)) × Typed (in_hand mem.old journal.now twin.old) }
{
    let done = undo_value(*twin, mem, journal);
    *twin = done.twin;
    done.reported
}
