// The recorded calls. A call's record is written to the unused rest of the journal before its writes are stored: the machine, the count of
// its entries, the entries, and its length as the last byte.
ghost use Rattle.std.specs.Prelude.{ℕ, ◌+◌, ◌*◌, ◌≤◌, ◌<◌, ◌≡◌, List, [], ◌++◌, length, drop};
ghost use Rattle.std.proofs.lemmas.List.Edits.{sets};
ghost use Rattle.memory.specs.Map.{landing_of};
ghost use Rattle.memory.specs.Writes.{listed};
ghost use Rattle.machine.specs.Record.{header, header_length};
ghost use Rattle.calls.specs.Calls.{plan_of};
ghost use Rattle.journal.specs.Record.{most_stored, entry_length, entries_at, record_length, entries, encode};
ghost use Rattle.memory.specs.declared.Landing.TheVariants.{Stored};
ghost use Rattle.journal.specs.Recorded.{in_hand, Typed, turned_down, Leaves, Admits, saved_at, saved_for, admitted, plan_answer, concluded, called, call_of};
ghost use Rattle.journal.specs.Recorded.{call as call_ends, interrupted, was_reset, outside_of};

use super::told::step;
use super::{COUNT, CallType, ENTRIES, ENTRY, Outcome, Twin, record_length};
use answers::Refusal;
use calls::{InterruptType, Plan};
use machine::{CYCLES, INSTRUCTIONS, Machine, Settings};
use memory::{Landing, Write, Writes};

pub fn refused(twin: Twin, refusal: Refusal) -> Outcome
    ensures { result ≡ turned_down twin refusal }
{
    Outcome {
        devices: Writes::none(),
        twin,
        reads: 0,
        writes: 0,
        answer: Err(refusal),
    }
}

// Stores a part over the bytes from `at` on. Crate text has the same line, and the journal does not stand on it for that.
fn lay(rest: &mut [u8], at: usize, part: &[u8])
    requires { at + length part.now ≤ length rest.old }
    ensures { rest.new ≡ sets rest.old at part.now }
{
    rest[at..at + part.len()].copy_from_slice(part);
}

pub fn write_header(rest: &mut [u8], machine: Machine)
    requires { header_length ≤ length rest.old }
    ensures { rest.new ≡ sets rest.old 0 (header machine) }
{
    lay(rest, 0, &machine::front_of(machine));
    lay(rest, CYCLES, &machine::counter_of(machine.cycles));
    lay(
        rest,
        INSTRUCTIONS,
        &machine::counter_of(machine.instructions),
    );
}

// One entry: a place of memory, and the byte that it has. `rest` and `mem` stay two parameters: the one is written, the other only read.
pub fn entry(rest: &mut [u8], at: usize, mem: &[u8], place: u16)
    requires { (at + entry_length ≤ length rest.old) × (length mem.now ≡ 65536) }
    ensures { rest.new ≡ sets rest.old at (entries (saved_at mem.now (Stored place))) }
{
    let [high, low] = place.to_be_bytes();
    lay(rest, at, &[high, low, mem[place as usize]]);
}

// How many entries a write has: 1 if it is stored. `save` asks the same again: the entries are counted before any of them is written.
fn entries_for(ram_top: u16, one: Write) -> usize
    ensures { (mem : List ℕ) → result ≡ length (saved_at mem (landing_of one.at ram_top one.system)) }
{
    match memory::lands(one.at, ram_top, one.system) {
        Landing::Stored(_) => 1,
        Landing::Device | Landing::Ignored => 0,
    }
}

// How many entries a call's writes have: so its record's length is known before a byte of the journal is written.
fn count_entries(ram_top: u16, writes: Writes) -> usize
    ensures { (result ≤ most_stored) × ((mem : List ℕ) → result ≡ length (saved_for ram_top (listed writes) mem)) }
{
    let mut n = 0;
    for one in writes.as_slice() {
        n += entries_for(ram_top, *one);
    }
    n
}

// One write's entry, if it is stored, after the n that are there; how many are there then.
fn save(rest: &mut [u8], n: usize, mem: &[u8], ram_top: u16, one: Write) -> usize
    requires { (n < most_stored) × ((entries_at + (n + length (saved_at mem.now (landing_of one.at ram_top one.system))) * entry_length ≤ length rest.old) × (length mem.now ≡ 65536)) }
    ensures { (result ≡ n + length (saved_at mem.now (landing_of one.at ram_top one.system))) × (rest.new ≡ sets rest.old (entries_at + n * entry_length) (entries (saved_at mem.now (landing_of one.at ram_top one.system)))) }
{
    match memory::lands(one.at, ram_top, one.system) {
        Landing::Stored(p) => {
            entry(rest, ENTRIES + n * ENTRY, mem, p);
            n + 1
        }
        Landing::Device | Landing::Ignored => n,
    }
}

// The entries of a call's writes, in order: the walk of `count_entries` again, once their count is known.
fn save_all(rest: &mut [u8], mem: &[u8], ram_top: u16, writes: Writes)
    requires { (entries_at + length (saved_for ram_top (listed writes) mem.now) * entry_length ≤ length rest.old) × (length mem.now ≡ 65536) }
    ensures { rest.new ≡ sets rest.old entries_at (entries (saved_for ram_top (listed writes) mem.now)) }
{
    let mut n = 0;
    for one in writes.as_slice() {
        n = save(rest, n, mem, ram_top, *one);
    }
}

// A call's record, of n entries, at the front of the unused rest of the journal.
fn write_record(
    rest: &mut [u8],
    mem: &[u8],
    machine: Machine,
    ram_top: u16,
    writes: Writes,
    n: usize,
)
    requires { (n ≡ length (saved_for ram_top (listed writes) mem.now)) × ((n ≤ most_stored) × ((record_length n ≤ length rest.old) × (length mem.now ≡ 65536))) }
    ensures { rest.new ≡ encode machine (saved_for ram_top (listed writes) mem.now) ++ drop (record_length n) rest.old }
{
    write_header(rest, machine);
    rest[COUNT] = n as u8;
    save_all(rest, mem, ram_top, writes);
    let last = ENTRIES + n * ENTRY;
    rest[last] = (last + 1) as u8;
}

// What is judged before a call's plan: memory, the journal's length, and that one more record can be counted.
pub fn admits(memory: usize, journal: usize, records: usize, bytes: usize) -> Result<(), Refusal>
    ensures { result ≡ admitted memory journal records bytes }
{
    if memory != 65536 {
        return Err(Refusal::MemoryLength);
    }
    if bytes > journal {
        return Err(Refusal::JournalLength);
    }
    if records == usize::MAX {
        return Err(Refusal::JournalLength);
    }
    Ok(())
}

// What a recorded call does with its plan. Whether the record fits is known before a byte of it is written, and it is written before the
// writes are stored. `Admits` names what is known of memory, journal and counts. They stay parameters, as in the public calls: a struct of
// them would be built by each public call, and taken apart again where the record is written.
pub fn conclude(
    mem: &mut [u8],
    journal: &mut [u8],
    twin: Twin,
    settings: Settings,
    plan: Plan,
) -> Outcome
    requires { Admits mem.old journal.old twin }
    ensures { Leaves result mem.new journal.new (concluded (plan_answer settings plan (in_hand mem.old journal.old twin)) settings plan (in_hand mem.old journal.old twin)) }
{
    // An outcome is no Result: a refused call gives back its twin. So no `?` hands a refusal on, here and in each call below.
    if let Err(refusal) = plan.answer {
        return refused(twin, refusal);
    }
    let n = count_entries(settings.ram_top, plan.writes);
    let size = record_length(n);
    if journal.len() - twin.bytes < size {
        return refused(twin, Refusal::JournalFull);
    }
    write_record(
        &mut journal[twin.bytes..],
        mem,
        twin.machine,
        settings.ram_top,
        plan.writes,
        n,
    );
    let report = calls::carry_out(mem, settings, plan);
    Outcome {
        devices: report.devices,
        twin: twin.after(report.machine, size),
        reads: report.reads,
        writes: report.writes,
        answer: Ok(()),
    }
}

// A call with its plan, from the first refusal on. A plan changes nothing, so that it may be made before. `typed` stands here and in each
// public call: the theorems of crates/history take it of any of them.
pub fn record_plan(
    mem: &mut [u8],
    journal: &mut [u8],
    twin: Twin,
    settings: Settings,
    plan: Plan,
) -> Outcome
    ensures leaves { Leaves result mem.new journal.new (called settings plan (in_hand mem.old journal.old twin)) }
    ensures typed { Typed (in_hand mem.old journal.old twin) }
{
    if let Err(refusal) = admits(mem.len(), journal.len(), twin.records, twin.bytes) {
        return refused(twin, refusal);
    }
    conclude(mem, journal, twin, settings, plan)
}

// The calls that come from outside the program. Both are made at one place, which is then not compiled into each loop that makes steps.
// No Option of an interrupt: a reset is a call as well, and None would not say which.
#[derive(Clone, Copy)]
enum Outside {
    Interrupt(InterruptType),
    Reset,
}

fn plan_outside(mem: &[u8], machine: Machine, settings: Settings, which: Outside) -> Plan
    ensures { result ≡ plan_of (outside_of which settings) mem.now machine }
{
    match which {
        Outside::Interrupt(line) => calls::plan_interrupt(mem, machine, settings, line),
        Outside::Reset => calls::plan_reset(mem, machine),
    }
}

fn record_outside(
    mem: &mut [u8],
    journal: &mut [u8],
    twin: Twin,
    settings: Settings,
    which: Outside,
) -> Outcome
    ensures leaves { Leaves result mem.new journal.new (call_ends (outside_of which settings) (in_hand mem.old journal.old twin)) }
    ensures typed { Typed (in_hand mem.old journal.old twin) }
{
    let plan = plan_outside(mem, twin.machine, settings, which);
    record_plan(mem, journal, twin, settings, plan)
}

pub fn interrupt(
    mem: &mut [u8],
    journal: &mut [u8],
    twin: Twin,
    settings: Settings,
    which: InterruptType,
) -> Outcome
    ensures leaves { Leaves result mem.new journal.new (interrupted settings which (in_hand mem.old journal.old twin)) }
    ensures typed { Typed (in_hand mem.old journal.old twin) }
{
    record_outside(mem, journal, twin, settings, Outside::Interrupt(which))
}

pub fn reset(mem: &mut [u8], journal: &mut [u8], twin: Twin, settings: Settings) -> Outcome
    ensures leaves { Leaves result mem.new journal.new (was_reset settings (in_hand mem.old journal.old twin)) }
    ensures typed { Typed (in_hand mem.old journal.old twin) }
{
    record_outside(mem, journal, twin, settings, Outside::Reset)
}

// Any recorded call. A loop that makes calls of several kinds makes them here, so that the step is compiled into it once.
pub fn call(
    mem: &mut [u8],
    journal: &mut [u8],
    twin: Twin,
    settings: Settings,
    which: CallType,
) -> Outcome
    ensures leaves { Leaves result mem.new journal.new (call_ends (call_of which settings) (in_hand mem.old journal.old twin)) }
    ensures typed { Typed (in_hand mem.old journal.old twin) }
{
    match which {
        CallType::Step => step(mem, journal, twin, settings),
        CallType::Interrupt(line) => interrupt(mem, journal, twin, settings, line),
        CallType::Reset => reset(mem, journal, twin, settings),
    }
}
