// The recorded step for a host. It is a crate of its own, hence an archive of its own, host_step_c: with one call site in its archive the
// step is compiled into it (docs/PERFORMANCE.md).
#![tactic(auto)]

ghost use Rattle.journal.specs.Recorded.{stepped};
ghost use Rattle.host.specs.Numbers.{is_named};
ghost use Rattle.host.specs.Structs.{settings_from};
ghost use Rattle.host.specs.Ends.{Ends};

use host::{HostOutcome, HostSettings, HostTwin};
use journal::Twin;
use machine::Settings;

#[unsafe(no_mangle)]
pub extern "C" fn doorhawser_step(
    mem: &mut [u8],
    journal: &mut [u8],
    twin: HostTwin,
    settings: HostSettings,
) -> HostOutcome
    ensures { Ends (is_named twin settings) (stepped (settings_from settings)) twin mem.old journal.old result mem.new journal.new }
{
    if host::is_named(twin, settings) {
        return HostOutcome::from(journal::step(
            mem,
            journal,
            Twin::from(twin),
            Settings::from(settings),
        ));
    }
    host::unnamed(twin)
}
