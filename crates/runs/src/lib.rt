// A run with an allowance: recorded steps in one call, until one of five things ends it (document 02, [12]).
#![tactic(auto)]

ghost use Rattle.std.specs.Prelude.{◌≡◌, Ok};
ghost use Rattle.journal.specs.Recorded.{in_hand, Typed};
ghost use Rattle.answers.specs.Numbers.{number_of_answer};
ghost use Rattle.runs.specs.Runs.{tested, ran, reason_number, RunLeaves};

use answers::Refusal;
use journal::{Outcome, Twin};
use machine::{Settings, Wait};
use memory::Writes;
use training::{Engine, First, Second};

// Why a run ended, in the order in which it is tested.
#[derive(Clone, Copy, PartialEq, Eq)]
pub enum Reason {
    StepRefused = 1,
    Waits = 2,
    StopAddress = 3,
    DeviceWrite = 4,
    Allowance = 5,
}

// What a run returns: the last step's device writes, the machine and the counts after it, why it ended, the number of the step that was
// refused, or 0, the bytes that its steps read and wrote, and its own answer, which is always 0. Number and answer are no Option and no
// Result: `ran_returned` of specs/Runs.antt promises each number.
#[derive(Clone, Copy)]
pub struct RunOutcome {
    pub devices: Writes,
    pub twin: Twin,
    pub reason: Reason,
    pub number: u8,
    pub reads: u64,
    pub writes: u64,
    pub answer: Result<(), Refusal>,
}

impl Reason {
    // 1 to 5.
    pub fn number(self) -> u8
        ensures { result ≡ reason_number self }
    {
        self as u8
    }
}

// The order is document 02's.
#[tactic(auto, unfolding(crate::specs::Runs::tested))]
fn test(last: &Outcome, stop: Option<u16>) -> Option<Reason>
    ensures { result ≡ tested stop last.now }
{
    let machine = &last.twin.machine;
    if last.answer.is_err() {
        return Some(Reason::StepRefused);
    }
    if machine.wait != Wait::Running {
        return Some(Reason::Waits);
    }
    if stop == Some(machine.regs.pc) {
        return Some(Reason::StopAddress);
    }
    if 0 < last.devices.count {
        return Some(Reason::DeviceWrite);
    }
    None
}

// The step is called at this one place, so that it is compiled in. A run whose allowance is used up has no device write to report: it would
// have ended with it.
fn run_on<E: Engine>(
    mem: &mut [u8],
    journal: &mut [u8],
    twin: Twin,
    settings: Settings,
    allowance: u64,
    stop: Option<u16>,
) -> RunOutcome
    ensures run_leaves { RunLeaves result mem.new journal.new (ran settings stop allowance (in_hand mem.old journal.old twin)) }
    ensures typed { Typed (in_hand mem.old journal.old twin) }
{
    let mut current = twin;
    let mut reads: u64 = 0;
    let mut writes: u64 = 0;
    for _ in 0..allowance {
        let last = E::step(mem, journal, current, settings);
        reads = reads.wrapping_add(u64::from(last.reads));
        writes = writes.wrapping_add(u64::from(last.writes));
        current = last.twin;
        if let Some(reason) = test(&last, stop) {
            return RunOutcome {
                devices: last.devices,
                twin: current,
                reason,
                number: answers::number(&last.answer),
                reads,
                writes,
                answer: Ok(()),
            };
        }
    }
    RunOutcome {
        devices: Writes::none(),
        twin: current,
        reason: Reason::Allowance,
        number: 0,
        reads,
        writes,
        answer: Ok(()),
    }
}

// On the first engine.
pub fn run(
    mem: &mut [u8],
    journal: &mut [u8],
    twin: Twin,
    settings: Settings,
    allowance: u64,
    stop: Option<u16>,
) -> RunOutcome
    ensures run_leaves { RunLeaves result mem.new journal.new (ran settings stop allowance (in_hand mem.old journal.old twin)) }
    ensures typed { Typed (in_hand mem.old journal.old twin) }
{
    run_on::<First>(mem, journal, twin, settings, allowance, stop)
}

// The same on the second engine.
pub fn run_second(
    mem: &mut [u8],
    journal: &mut [u8],
    twin: Twin,
    settings: Settings,
    allowance: u64,
    stop: Option<u16>,
) -> RunOutcome
    ensures run_leaves { RunLeaves result mem.new journal.new (ran settings stop allowance (in_hand mem.old journal.old twin)) }
    ensures typed { Typed (in_hand mem.old journal.old twin) }
{
    run_on::<Second>(mem, journal, twin, settings, allowance, stop)
}
