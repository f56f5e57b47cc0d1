// Many steps that are not recorded, for hosts in C and Rust. It is an archive of its own for the same reason as the recorded step.
#![tactic(auto)]

ghost use Rattle.host.specs.Numbers.{is_named};
ghost use Rattle.host.specs.Structs.{settings_from, machine_from};
ghost use Rattle.host_run.specs.Runs.{before, running, RunEnds};

use host::{HostSettings, HostTwin};
use host_run::HostRan;

#[unsafe(no_mangle)]
pub extern "C" fn doorhawser_run_unrecorded(
    mem: &mut [u8],
    twin: HostTwin,
    settings: HostSettings,
    count: u64,
) -> HostRan
    ensures { RunEnds (is_named twin settings) (running (settings_from settings) count (before (machine_from twin)) mem.old) twin count mem.old result mem.new }
{
    host_run::doorhawser_run_unrecorded(mem, twin, settings, count)
}
