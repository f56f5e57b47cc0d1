// A run of recorded steps with an allowance, for hosts in C and Rust. It is an archive of its own for the same reason as the recorded step.
#![tactic(auto)]

ghost use Rattle.std.specs.Prelude.{◌&&◌};
ghost use Rattle.host.specs.Numbers.{is_named};
ghost use Rattle.host.specs.Structs.{settings_from};
ghost use Rattle.host.specs.Ends.{handed};
ghost use Rattle.runs.specs.Runs.{ran};
ghost use Rattle.host_run_recorded.specs.Runs.{is_stop, stop_from, HostRunEnds};

use host::{HostSettings, HostTwin};
use host_run_recorded::HostStopped;

#[unsafe(no_mangle)]
pub extern "C" fn doorhawser_run(
    mem: &mut [u8],
    journal: &mut [u8],
    twin: HostTwin,
    settings: HostSettings,
    allowance: u64,
    stop: u32,
) -> HostStopped
    ensures { HostRunEnds (is_named twin settings && is_stop stop) (ran (settings_from settings) (stop_from stop) allowance (handed mem.old journal.old twin)) twin mem.old journal.old result mem.new journal.new }
{
    host_run_recorded::doorhawser_run(mem, journal, twin, settings, allowance, stop)
}
