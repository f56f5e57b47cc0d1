// A recorded call on one engine or the other: what plays a file or makes a run of steps is written once, for any engine, and a program has the
// code of the engine that it names.
ghost use Rattle.std.specs.Prelude.{◌≡◌};
ghost use Rattle.journal.specs.Recorded.{in_hand, Typed, Leaves, stepped, call_of};
ghost use Rattle.journal.specs.Recorded.{call as call_ends};

use super::recorded;
use journal::{CallType, Outcome, Twin};
use machine::Settings;

pub trait Engine {
    fn step(mem: &mut [u8], journal: &mut [u8], twin: Twin, settings: Settings) -> Outcome
        ensures leaves { Leaves result mem.new journal.new (stepped settings (in_hand mem.old journal.old twin)) }
        ensures typed { Typed (in_hand mem.old journal.old twin) };

    fn call(
        mem: &mut [u8],
        journal: &mut [u8],
        twin: Twin,
        settings: Settings,
        which: CallType,
    ) -> Outcome
        ensures leaves { Leaves result mem.new journal.new (call_ends (call_of which settings) (in_hand mem.old journal.old twin)) }
        ensures typed { Typed (in_hand mem.old journal.old twin) };
}

// The first engine.
pub struct First;

impl Engine for First {
    fn step(mem: &mut [u8], journal: &mut [u8], twin: Twin, settings: Settings) -> Outcome {
        journal::step(mem, journal, twin, settings)
    }

    fn call(
        mem: &mut [u8],
        journal: &mut [u8],
        twin: Twin,
        settings: Settings,
        which: CallType,
    ) -> Outcome {
        journal::call(mem, journal, twin, settings, which)
    }
}

// The second engine.
pub struct Second;

impl Engine for Second {
    fn step(mem: &mut [u8], journal: &mut [u8], twin: Twin, settings: Settings) -> Outcome {
        recorded::record_step(mem, journal, twin, settings)
    }

    fn call(
        mem: &mut [u8],
        journal: &mut [u8],
        twin: Twin,
        settings: Settings,
        which: CallType,
    ) -> Outcome {
        recorded::call(mem, journal, twin, settings, which)
    }
}
