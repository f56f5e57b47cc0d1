// The calls of a host that are not steps: start, interrupt, reset, undo, drop, the newest record, and S-records, torn ones too.
// C calls each by its name, so that none is generic, and has no Result: an answer stands beside what is 0 where it is a refusal.
#![tactic(auto)]

ghost use Rattle.std.specs.Prelude.{◌≡◌, length};
ghost use Rattle.journal.specs.Recorded.{fresh_twin, interrupted, was_reset};
ghost use Rattle.journal.specs.Undos.{undone};
ghost use Rattle.journal.specs.Drops.{dropped};
ghost use Rattle.calls.specs.Interrupts.{interrupt_of, memory_after_interrupt};
ghost use Rattle.calls.specs.Resets.{reset_of, memory_after_reset};
ghost use Rattle.srecord.specs.File.{loaded_of, memory_loaded};
ghost use Rattle.srecord.specs.Written.{output_written, output_after};
ghost use Rattle.salvage.specs.Mended.{salvaged_of, output_mended, list_filled};
ghost use Rattle.host.specs.Numbers.{interrupt_type_of, is_twin, is_named, is_interrupt};
ghost use Rattle.host.specs.Structs.{settings_from, machine_from, host_twin};
ghost use Rattle.host.specs.Ends.{Ends, EndsEach, Reports};
ghost use Rattle.host_calls.specs.Results.{abi_number, part_of, host_loaded, host_written, host_salvaged};

use host::{HostOutcome, HostSettings, HostTwin};
use journal::Twin;
use machine::{Machine, Settings};

// Raised with each change of a struct, or of what a call takes.
const ABI: u64 = 4;

// `count` bytes of the journal from `at` on; 0 bytes where there is no record.
#[repr(C)]
#[derive(Clone, Copy)]
pub struct HostPart {
    pub at: usize,
    pub count: usize,
}

#[repr(C)]
#[derive(Clone, Copy)]
pub struct HostLoaded {
    pub start: u64,
    pub answer: u64,
}

#[repr(C)]
#[derive(Clone, Copy)]
pub struct HostWritten {
    pub count: usize,
    pub answer: u64,
}

// `added` is 1 where S9 was added, else 0.
#[repr(C)]
#[derive(Clone, Copy)]
pub struct HostSalvaged {
    pub bytes: usize,
    pub numbers: usize,
    pub added: u64,
    pub answer: u64,
}

#[unsafe(no_mangle)]
pub extern "C" fn doorhawser_abi() -> u64
    ensures { result ≡ abi_number }
{
    ABI
}

// A fresh machine, and no record.
#[unsafe(no_mangle)]
pub extern "C" fn doorhawser_start() -> HostTwin
    ensures { result ≡ host_twin fresh_twin }
{
    HostTwin::from(Twin::fresh())
}

// `which` is 0 IRQ, 1 FIRQ, 2 NMI.
#[unsafe(no_mangle)]
pub extern "C" fn doorhawser_interrupt(
    mem: &mut [u8],
    journal: &mut [u8],
    twin: HostTwin,
    settings: HostSettings,
    which: u8,
) -> HostOutcome
    ensures { Ends (is_interrupt twin settings which) (interrupted (settings_from settings) (interrupt_type_of which)) twin mem.old journal.old result mem.new journal.new }
{
    if host::is_interrupt(twin, settings, which) {
        return HostOutcome::from(journal::interrupt(
            mem,
            journal,
            Twin::from(twin),
            Settings::from(settings),
            host::interrupt_type_of(which),
        ));
    }
    host::unnamed(twin)
}

#[unsafe(no_mangle)]
pub extern "C" fn doorhawser_reset(
    mem: &mut [u8],
    journal: &mut [u8],
    twin: HostTwin,
    settings: HostSettings,
) -> HostOutcome
    ensures { Ends (is_named twin settings) (was_reset (settings_from settings)) twin mem.old journal.old result mem.new journal.new }
{
    if host::is_named(twin, settings) {
        return HostOutcome::from(journal::reset(
            mem,
            journal,
            Twin::from(twin),
            Settings::from(settings),
        ));
    }
    host::unnamed(twin)
}

// The newest recorded call is taken back. The journal is only read.
#[unsafe(no_mangle)]
pub extern "C" fn doorhawser_undo(mem: &mut [u8], journal: &[u8], twin: HostTwin) -> HostOutcome
    ensures { Ends (is_twin twin) undone twin mem.old journal.now result mem.new journal.now }
{
    if host::is_twin(twin) {
        return HostOutcome::from(journal::undo(mem, journal, Twin::from(twin)));
    }
    host::unnamed(twin)
}

// The oldest k records are forgotten, and the rest is moved to the front. No memory is lent: whatever it is, it stays.
#[unsafe(no_mangle)]
pub extern "C" fn doorhawser_drop(journal: &mut [u8], twin: HostTwin, k: usize) -> HostOutcome
    ensures { EndsEach (is_twin twin) (dropped k) twin journal.old result journal.new }
{
    if host::is_twin(twin) {
        return HostOutcome::from(journal::drop(journal, Twin::from(twin), k));
    }
    host::unnamed(twin)
}

#[unsafe(no_mangle)]
pub extern "C" fn doorhawser_interrupt_unrecorded(
    mem: &mut [u8],
    twin: HostTwin,
    settings: HostSettings,
    which: u8,
) -> HostOutcome
    ensures { Reports (is_interrupt twin settings which) (interrupt_of mem.old (machine_from twin) (settings_from settings) (interrupt_type_of which)) (memory_after_interrupt mem.old (machine_from twin) (settings_from settings) (interrupt_type_of which)) twin mem.old result mem.new }
{
    if host::is_interrupt(twin, settings, which) {
        return host::report_of(
            twin,
            calls::interrupt(
                mem,
                Machine::from(twin),
                Settings::from(settings),
                host::interrupt_type_of(which),
            ),
        );
    }
    host::unnamed(twin)
}

#[unsafe(no_mangle)]
pub extern "C" fn doorhawser_reset_unrecorded(
    mem: &mut [u8],
    twin: HostTwin,
    settings: HostSettings,
) -> HostOutcome
    ensures { Reports (is_named twin settings) (reset_of mem.old (machine_from twin) (settings_from settings)) (memory_after_reset mem.old (machine_from twin) (settings_from settings)) twin mem.old result mem.new }
{
    if host::is_named(twin, settings) {
        return host::report_of(
            twin,
            calls::reset(mem, Machine::from(twin), Settings::from(settings)),
        );
    }
    host::unnamed(twin)
}

// Where the newest record stands in the journal.
#[unsafe(no_mangle)]
pub extern "C" fn doorhawser_newest(journal: &[u8], records: usize, bytes: usize) -> HostPart
    ensures { result ≡ part_of journal.now records bytes }
{
    let part = journal::newest(journal, records, bytes);
    let size = part.len();
    if size == 0 {
        return HostPart { at: 0, count: 0 };
    }
    let at = bytes - size;
    HostPart { at, count: size }
}

// An S-record file is laid in memory.
#[unsafe(no_mangle)]
pub extern "C" fn doorhawser_load(mem: &mut [u8], text: &[u8]) -> HostLoaded
    ensures { (result ≡ host_loaded (loaded_of mem.old text.now)) × (mem.new ≡ memory_loaded mem.old text.now) }
{
    match srecord::read(mem, text) {
        Ok(start) => HostLoaded {
            start: start as u64,
            answer: 0,
        },
        Err(refusal) => HostLoaded {
            start: 0,
            answer: refusal.number() as u64,
        },
    }
}

// Memory as an S-record file, at the front of `out`.
#[unsafe(no_mangle)]
pub extern "C" fn doorhawser_save(mem: &[u8], start: u16, out: &mut [u8]) -> HostWritten
    ensures { (result ≡ host_written (output_written mem.now start out.old)) × (out.new ≡ output_after mem.now start out.old) }
{
    match srecord::write(mem, start, out) {
        Ok(count) => HostWritten { count, answer: 0 },
        Err(refusal) => HostWritten {
            count: 0,
            answer: refusal.number() as u64,
        },
    }
}

// What is sound of an S-record file, at the front of `out`, and the numbers of the lines that are dropped, at the front of `list`.
#[unsafe(no_mangle)]
pub extern "C" fn doorhawser_salvage(text: &[u8], out: &mut [u8], list: &mut [u8]) -> HostSalvaged
    ensures { (result ≡ host_salvaged (salvaged_of text.now out.old list.old)) × ((out.new ≡ output_mended text.now out.old list.old) × (list.new ≡ list_filled text.now out.old list.old)) }
{
    match salvage::salvage(text, out, list) {
        Ok(salvaged) => HostSalvaged {
            bytes: salvaged.bytes,
            numbers: salvaged.numbers,
            added: salvaged.added as u64,
            answer: 0,
        },
        Err(refusal) => HostSalvaged {
            bytes: 0,
            numbers: 0,
            added: 0,
            answer: refusal.number() as u64,
        },
    }
}
