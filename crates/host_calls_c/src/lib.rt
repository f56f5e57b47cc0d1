// The calls that are not steps, for hosts in C and Rust: start, interrupt, reset, undo, drop, the newest record, and S-records, torn ones
// too. A thin archive over the library of the same names, as host_step_c is.
#![tactic(auto)]

ghost use Rattle.std.specs.Prelude.{◌≡◌};
ghost use Rattle.journal.specs.Recorded.{fresh_twin, interrupted, was_reset};
ghost use Rattle.journal.specs.Undos.{undone};
ghost use Rattle.journal.specs.Drops.{dropped};
ghost use Rattle.calls.specs.Interrupts.{interrupt_of, memory_after_interrupt};
ghost use Rattle.calls.specs.Resets.{reset_of, memory_after_reset};
ghost use Rattle.srecord.specs.File.{loaded_of, memory_loaded};
ghost use Rattle.srecord.specs.Written.{output_written, output_after};
ghost use Rattle.salvage.specs.Mended.{salvaged_of, output_mended, list_filled};
ghost use Rattle.host.specs.Numbers.{interrupt_type_of, is_twin, is_named, is_interrupt};
ghost use Rattle.host.specs.Structs.{settings_from, machine_from, host_twin};
ghost use Rattle.host.specs.Ends.{Ends, EndsEach, Reports};
ghost use Rattle.host_calls.specs.Results.{abi_number, part_of, host_loaded, host_written, host_salvaged};

use host::{HostOutcome, HostSettings, HostTwin};
use host_calls::{HostLoaded, HostPart, HostSalvaged, HostWritten};

#[unsafe(no_mangle)]
pub extern "C" fn doorhawser_abi() -> u64
    ensures { result ≡ abi_number }
{
    host_calls::doorhawser_abi()
}

#[unsafe(no_mangle)]
pub extern "C" fn doorhawser_start() -> HostTwin
    ensures { result ≡ host_twin fresh_twin }
{
    host_calls::doorhawser_start()
}

#[unsafe(no_mangle)]
pub extern "C" fn doorhawser_interrupt(
    mem: &mut [u8],
    journal: &mut [u8],
    twin: HostTwin,
    settings: HostSettings,
    which: u8,
) -> HostOutcome
    ensures { Ends (is_interrupt twin settings which) (interrupted (settings_from settings) (interrupt_type_of which)) twin mem.old journal.old result mem.new journal.new }
{
    host_calls::doorhawser_interrupt(mem, journal, twin, settings, which)
}

#[unsafe(no_mangle)]
pub extern "C" fn doorhawser_reset(
    mem: &mut [u8],
    journal: &mut [u8],
    twin: HostTwin,
    settings: HostSettings,
) -> HostOutcome
    ensures { Ends (is_named twin settings) (was_reset (settings_from settings)) twin mem.old journal.old result mem.new journal.new }
{
    host_calls::doorhawser_reset(mem, journal, twin, settings)
}

#[unsafe(no_mangle)]
pub extern "C" fn doorhawser_undo(mem: &mut [u8], journal: &[u8], twin: HostTwin) -> HostOutcome
    ensures { Ends (is_twin twin) undone twin mem.old journal.now result mem.new journal.now }
{
    host_calls::doorhawser_undo(mem, journal, twin)
}

#[unsafe(no_mangle)]
pub extern "C" fn doorhawser_drop(journal: &mut [u8], twin: HostTwin, k: usize) -> HostOutcome
    ensures { EndsEach (is_twin twin) (dropped k) twin journal.old result journal.new }
{
    host_calls::doorhawser_drop(journal, twin, k)
}

#[unsafe(no_mangle)]
pub extern "C" fn doorhawser_interrupt_unrecorded(
    mem: &mut [u8],
    twin: HostTwin,
    settings: HostSettings,
    which: u8,
) -> HostOutcome
    ensures { Reports (is_interrupt twin settings which) (interrupt_of mem.old (machine_from twin) (settings_from settings) (interrupt_type_of which)) (memory_after_interrupt mem.old (machine_from twin) (settings_from settings) (interrupt_type_of which)) twin mem.old result mem.new }
{
    host_calls::doorhawser_interrupt_unrecorded(mem, twin, settings, which)
}

#[unsafe(no_mangle)]
pub extern "C" fn doorhawser_reset_unrecorded(
    mem: &mut [u8],
    twin: HostTwin,
    settings: HostSettings,
) -> HostOutcome
    ensures { Reports (is_named twin settings) (reset_of mem.old (machine_from twin) (settings_from settings)) (memory_after_reset mem.old (machine_from twin) (settings_from settings)) twin mem.old result mem.new }
{
    host_calls::doorhawser_reset_unrecorded(mem, twin, settings)
}

#[unsafe(no_mangle)]
pub extern "C" fn doorhawser_newest(journal: &[u8], records: usize, bytes: usize) -> HostPart
    ensures { result ≡ part_of journal.now records bytes }
{
    host_calls::doorhawser_newest(journal, records, bytes)
}

#[unsafe(no_mangle)]
pub extern "C" fn doorhawser_load(mem: &mut [u8], text: &[u8]) -> HostLoaded
    ensures { (result ≡ host_loaded (loaded_of mem.old text.now)) × (mem.new ≡ memory_loaded mem.old text.now) }
{
    host_calls::doorhawser_load(mem, text)
}

#[unsafe(no_mangle)]
pub extern "C" fn doorhawser_save(mem: &[u8], start: u16, out: &mut [u8]) -> HostWritten
    ensures { (result ≡ host_written (output_written mem.now start out.old)) × (out.new ≡ output_after mem.now start out.old) }
{
    host_calls::doorhawser_save(mem, start, out)
}

#[unsafe(no_mangle)]
pub extern "C" fn doorhawser_salvage(text: &[u8], out: &mut [u8], list: &mut [u8]) -> HostSalvaged
    ensures { (result ≡ host_salvaged (salvaged_of text.now out.old list.old)) × ((out.new ≡ output_mended text.now out.old list.old) × (list.new ≡ list_filled text.now out.old list.old)) }
{
    host_calls::doorhawser_salvage(text, out, list)
}
