// The step that is not recorded, for a host. It is a crate of its own for the same reason as the recorded step.
#![tactic(auto)]

ghost use Rattle.calls.specs.Steps.{step_of, memory_after_step};
ghost use Rattle.host.specs.Numbers.{is_named};
ghost use Rattle.host.specs.Structs.{settings_from, machine_from};
ghost use Rattle.host.specs.Ends.{Reports};

use host::{HostOutcome, HostSettings, HostTwin};
use machine::{Machine, Settings};

#[unsafe(no_mangle)]
pub extern "C" fn doorhawser_step_unrecorded(
    mem: &mut [u8],
    twin: HostTwin,
    settings: HostSettings,
) -> HostOutcome
    ensures { Reports (is_named twin settings) (step_of mem.old (machine_from twin) (settings_from settings)) (memory_after_step mem.old (machine_from twin) (settings_from settings)) twin mem.old result mem.new }
{
    if host::is_named(twin, settings) {
        return host::report_of(
            twin,
            calls::step(mem, Machine::from(twin), Settings::from(settings)),
        );
    }
    host::unnamed(twin)
}
