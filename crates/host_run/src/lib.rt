// Many steps that are not recorded, in one call of a host. It is a crate of its own for the same reason as the recorded step.
#![tactic(auto)]

ghost use Rattle.std.specs.Prelude.{◌≡◌};
ghost use Rattle.host.specs.Numbers.{is_named};
ghost use Rattle.host.specs.Structs.{settings_from, machine_from};
ghost use Rattle.host_run.specs.Runs.{goes_on, before, uncounted, running, host_ran, not_run, RunEnds};

use calls::Report;
use host::{HostOutcome, HostSettings, HostTwin};
use machine::{Machine, Settings};
use memory::Writes;

// How the last step ended, and how many steps are left: those allowed less those carried out.
#[repr(C)]
#[derive(Clone, Copy)]
pub struct HostRan {
    pub last: HostOutcome,
    pub left: u64,
}

// The same of a machine.
#[derive(Clone, Copy)]
pub struct Ran {
    pub last: Report,
    pub left: u64,
}

// A run goes on after a step that was carried out and reported no device write.
fn goes_on(report: Report) -> bool
    ensures { result ≡ goes_on report }
{
    match report.answer {
        Ok(()) => report.devices.count == 0,
        Err(_) => false,
    }
}

// A step that is refused does not count.
fn uncounted(report: Report) -> u64
    ensures { result ≡ uncounted report.answer }
{
    report.answer.is_err() as u64
}

fn run(mem: &mut [u8], machine: Machine, settings: Settings, count: u64) -> Ran
    ensures { (result ≡ (running settings count (before machine) mem.old).ran) × (mem.new ≡ (running settings count (before machine) mem.old).memory) }
{
    let mut last = Report {
        devices: Writes::none(),
        machine,
        reads: 0,
        writes: 0,
        answer: Ok(()),
    };
    let mut left = count;
    // What a step did ends the loop too: a `for` would leave its body for that, and be no plainer.
    while (0 < left) & goes_on(last) {
        last = calls::step(mem, last.machine, settings);
        left -= 1;
    }
    Ran {
        last,
        left: left + uncounted(last),
    }
}

fn not_run(t: HostTwin, count: u64) -> HostRan
    ensures { result ≡ not_run t count }
{
    HostRan {
        last: host::unnamed(t),
        left: count,
    }
}

// At most `count` steps, up to and with the first that is refused or reports a device write.
#[unsafe(no_mangle)]
pub extern "C" fn doorhawser_run_unrecorded(
    mem: &mut [u8],
    twin: HostTwin,
    settings: HostSettings,
    count: u64,
) -> HostRan
    ensures { RunEnds (is_named twin settings) (running (settings_from settings) count (before (machine_from twin)) mem.old) twin count mem.old result mem.new }
{
    if host::is_named(twin, settings) {
        let ran = run(mem, Machine::from(twin), Settings::from(settings), count);
        return HostRan {
            last: host::report_of(twin, ran.last),
            left: ran.left,
        };
    }
    not_run(twin, count)
}
