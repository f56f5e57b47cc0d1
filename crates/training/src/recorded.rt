// The recorded calls of the second engine. The journal is the first engine's: it takes what a call will do, and does not ask who found it.
ghost use Rattle.std.specs.Prelude.{◌≡◌};
ghost use Rattle.journal.specs.Recorded.{in_hand, Typed, Leaves, stepped, call_of};
ghost use Rattle.journal.specs.Recorded.{call as call_ends};

use super::steps::plan_step;
use journal::{CallType, Outcome, Twin};
use machine::Settings;

// The step, recorded.
pub fn record_step(mem: &mut [u8], journal: &mut [u8], twin: Twin, settings: Settings) -> Outcome
    ensures leaves { Leaves result mem.new journal.new (stepped settings (in_hand mem.old journal.old twin)) }
    ensures typed { Typed (in_hand mem.old journal.old twin) }
{
    let plan = plan_step(mem, twin.machine, settings);
    journal::record_plan(mem, journal, twin, settings, plan)
}

// Any recorded call. An interrupt and a reset are the first engine's: they decode nothing and change no arithmetic flag.
pub fn call(
    mem: &mut [u8],
    journal: &mut [u8],
    twin: Twin,
    settings: Settings,
    which: CallType,
) -> Outcome
    ensures leaves { Leaves result mem.new journal.new (call_ends (call_of which settings) (in_hand mem.old journal.old twin)) }
    ensures typed { Typed (in_hand mem.old journal.old twin) }
{
    match which {
        CallType::Step => record_step(mem, journal, twin, settings),
        CallType::Interrupt(line) => journal::interrupt(mem, journal, twin, settings, line),
        CallType::Reset => journal::reset(mem, journal, twin, settings),
    }
}
