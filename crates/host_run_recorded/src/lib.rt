// A run of recorded steps with an allowance, in one call of a host. It is a crate of its own for the same reason as the recorded step.
#![tactic(auto)]

ghost use Rattle.std.specs.Prelude.{◌&&◌, ◌≡◌};
ghost use Rattle.host.specs.Numbers.{is_named};
ghost use Rattle.host.specs.Structs.{settings_from};
ghost use Rattle.host.specs.Ends.{handed};
ghost use Rattle.runs.specs.Runs.{ran};
ghost use Rattle.host_run_recorded.specs.Runs.{is_stop, stop_from, host_stopped, not_started, HostRunEnds};

use host::{HostOutcome, HostSettings, HostTwin};
use journal::{Outcome, Twin};
use machine::Settings;
use runs::RunOutcome;

// The number by which a host names no stop address: the first that is no address. C has no None.
const NO_STOP: u32 = 0x10000;

// What the run returns, with the bytes that its steps read and wrote, why it ended (0 where the host's numbers name nothing), and the
// refused step's number: C has no Option.
#[repr(C)]
#[derive(Clone, Copy)]
pub struct HostStopped {
    pub outcome: HostOutcome,
    pub reason: u64,
    pub number: u64,
}

fn is_stop(stop: u32) -> bool
    ensures { result ≡ is_stop stop }
{
    stop <= NO_STOP
}

fn stop_of(stop: u32) -> Option<u16>
    ensures { result ≡ stop_from stop }
{
    u16::try_from(stop).ok()
}

fn stopped(ran: RunOutcome) -> HostStopped
    ensures { result ≡ host_stopped ran }
{
    // The sums of a run are wider than a call's counts.
    let mut outcome = HostOutcome::from(Outcome {
        devices: ran.devices,
        twin: ran.twin,
        reads: 0,
        writes: 0,
        answer: ran.answer,
    });
    outcome.reads = ran.reads;
    outcome.writes = ran.writes;
    HostStopped {
        outcome,
        reason: ran.reason.number() as u64,
        number: ran.number as u64,
    }
}

fn not_started(t: HostTwin) -> HostStopped
    ensures { result ≡ not_started t }
{
    HostStopped {
        outcome: host::unnamed(t),
        reason: 0,
        number: 0,
    }
}

#[unsafe(no_mangle)]
pub extern "C" fn doorhawser_run(
    mem: &mut [u8],
    journal: &mut [u8],
    twin: HostTwin,
    settings: HostSettings,
    allowance: u64,
    stop: u32,
) -> HostStopped
    ensures { HostRunEnds (is_named twin settings && is_stop stop) (ran (settings_from settings) (stop_from stop) allowance (handed mem.old journal.old twin)) twin mem.old journal.old result mem.new journal.new }
{
    if host::is_named(twin, settings) & is_stop(stop) {
        return stopped(runs::run(
            mem,
            journal,
            Twin::from(twin),
            Settings::from(settings),
            allowance,
            stop_of(stop),
        ));
    }
    not_started(twin)
}
