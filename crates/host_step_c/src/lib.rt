// The recorded step for hosts in C and Rust. A crate is a library or an archive, so each library of such calls has a thin archive over it,
// whose functions call the library's of the same names and promise the same. With one call site in its archive the step is compiled into it
// (docs/PERFORMANCE.md).
#![tactic(auto)]

ghost use Rattle.journal.specs.Recorded.{stepped};
ghost use Rattle.host.specs.Numbers.{is_named};
ghost use Rattle.host.specs.Structs.{settings_from};
ghost use Rattle.host.specs.Ends.{Ends};

use host::{HostOutcome, HostSettings, HostTwin};

#[unsafe(no_mangle)]
pub extern "C" fn doorhawser_step(
    mem: &mut [u8],
    journal: &mut [u8],
    twin: HostTwin,
    settings: HostSettings,
) -> HostOutcome
    ensures { Ends (is_named twin settings) (stepped (settings_from settings)) twin mem.old journal.old result mem.new journal.new }
{
    host_step::doorhawser_step(mem, journal, twin, settings)
}
