// The recorded step. Its record is written from what was decided, where all that is stored is plain (crate calls); else by way of the list
// of writes, as other calls are. The plain way repeats what is done with a list, and makes none (docs/PERFORMANCE.md).
// `is_plain` stays a clause: it is said of settings and decision together, and both are passed on as they are.
ghost use Rattle.std.specs.Prelude.{ℕ, ◌+◌, ◌-◌, ◌*◌, ◌/◌, ◌%◌, ◌≤◌, ◌<◌, true, ◌≡◌, List, ◌++◌, length, drop};
ghost use Rattle.std.proofs.lemmas.List.Edits.{sets};
ghost use Rattle.memory.specs.Writes.{listed};
ghost use Rattle.stack.specs.Pushing.{order};
ghost use Rattle.calls.specs.Decisions.{plan_told, is_plain};
ghost use Rattle.calls.specs.Plans.{fenced};
ghost use Rattle.calls.specs.Steps.{step_plan};
ghost use Rattle.journal.specs.Record.{most_stored, entry_length, entries_at, record_length, entries, encode};
ghost use Rattle.journal.specs.Recorded.{in_hand, Typed, Leaves, Admits, saved_for, stepped};
ghost use Rattle.journal.specs.Told.{saved_from, left_to_save, CountsFor, concluded_for};

use super::recorded::{admits, conclude, entry, refused, write_header};
use super::{COUNT, ENTRIES, ENTRY, Outcome, Twin, record_length};
use answers::Refusal;
use calls::{Decision, Kind};
use machine::{Machine, Settings, Wait};
use memory::Writes;
use registers::{Set, Stack};

// The entries of the bytes from q on up to p, none, one or two, after those of the bytes from p up to the pointer; q.
fn save_below(rest: &mut [u8], mem: &[u8], pointer: u16, p: u16, size: u16) -> u16
    requires { ((size ≤ 2) × (size ≤ p)) × ((p ≤ pointer) × ((entries_at + (pointer - p + size) * entry_length ≤ length rest.old) × (length mem.now ≡ 65536))) }
    ensures { (result + size ≡ p) × (rest.new ≡ sets rest.old (entries_at + (pointer - p) * entry_length) (entries (saved_from result size mem.now))) }
{
    let q = p - size;
    let at = ENTRIES + (pointer - p) as usize * ENTRY;
    if size == 2 {
        entry(rest, at, mem, q);
        entry(rest, at + ENTRY, mem, q + 1);
        return q;
    }
    if size == 1 {
        entry(rest, at, mem, q);
    }
    q
}

// PC, the other stack pointer, Y and X, each where its bit of the post-byte is 1; the pointer after them. What is left to save then comes
// to what it came to before.
fn save_words(rest: &mut [u8], mem: &[u8], pointer: u16, mask: u8) -> u16
    requires { ((length mem.now ≡ 65536) × (pointer ≤ 0xFF00)) × ((2 * (mask / 128 % 2 + mask / 64 % 2 + mask / 32 % 2 + mask / 16 % 2) ≤ pointer) × (entries_at + 2 * (mask / 128 % 2 + mask / 64 % 2 + mask / 32 % 2 + mask / 16 % 2) * entry_length ≤ length rest.old)) }
    ensures { (result + 2 * (mask / 128 % 2 + mask / 64 % 2 + mask / 32 % 2 + mask / 16 % 2) ≡ pointer) × ((regs : Set) (own : Stack) (top : ℕ) → pointer ≤ top → left_to_save top regs mem.now pointer pointer mask (order own) rest.old ≡ left_to_save top regs mem.now pointer result mask (drop 4 (order own)) rest.new) }
{
    let pc = save_below(rest, mem, pointer, pointer, 2 * u16::from(mask / 128 % 2));
    let us = save_below(rest, mem, pointer, pc, 2 * u16::from(mask / 64 % 2));
    let y = save_below(rest, mem, pointer, us, 2 * u16::from(mask / 32 % 2));
    save_below(rest, mem, pointer, y, 2 * u16::from(mask / 16 % 2))
}

// DP, B, A and CC.
fn save_bytes(rest: &mut [u8], mem: &[u8], pointer: u16, p: u16, mask: u8)
    requires { ((length mem.now ≡ 65536) × ((pointer ≤ 0xFF00) × (p ≤ pointer))) × ((mask / 8 % 2 + mask / 4 % 2 + mask / 2 % 2 + mask % 2 ≤ p) × (entries_at + (pointer - p + (mask / 8 % 2 + mask / 4 % 2 + mask / 2 % 2 + mask % 2)) * entry_length ≤ length rest.old)) }
    ensures { (regs : Set) (own : Stack) (top : ℕ) → pointer ≤ top → rest.new ≡ left_to_save top regs mem.now pointer p mask (drop 4 (order own)) rest.old }
{
    let dp = save_below(rest, mem, pointer, p, u16::from(mask / 8 % 2));
    let b = save_below(rest, mem, pointer, dp, u16::from(mask / 4 % 2));
    let a = save_below(rest, mem, pointer, b, u16::from(mask / 2 % 2));
    let _ = save_below(rest, mem, pointer, a, u16::from(mask % 2));
}

// The entries of what is told.
fn save_told(rest: &mut [u8], mem: &[u8], settings: Settings, decision: Decision)
    requires { ((length mem.now ≡ 65536) × (is_plain settings decision ≡ true)) × ((m : Machine) → entries_at + length (saved_for settings.ram_top (listed (plan_told m settings mem.now decision).writes) mem.now) * entry_length ≤ length rest.old) }
    ensures { (m : Machine) → rest.new ≡ sets rest.old entries_at (entries (saved_for settings.ram_top (listed (plan_told m settings mem.now decision).writes) mem.now)) }
{
    let at = decision.at;
    match decision.kind {
        Kind::Refused => {}
        Kind::Change => {}
        Kind::Byte => {
            let _ = save_below(rest, mem, at + 1, at + 1, 1);
        }
        Kind::Word => {
            let _ = save_below(rest, mem, at + 2, at + 2, 2);
        }
        Kind::Push => {
            let pointer = decision.regs.word(decision.own.word());
            let mask = decision.mask;
            let p = save_words(rest, mem, pointer, mask);
            save_bytes(rest, mem, pointer, p, mask);
        }
        Kind::Rest => {}
    }
}

// What is told is refused, or its record's length is known before a byte of the journal is written.
fn count_told(settings: Settings, decision: Decision) -> Result<usize, Refusal>
    requires { is_plain settings decision ≡ true }
    ensures { (m : Machine) (mem : List ℕ) → CountsFor settings.ram_top mem (plan_told m settings mem decision) result }
{
    match decision.kind {
        Kind::Refused => Err(decision.refusal),
        Kind::Change => Ok(0),
        Kind::Byte => Ok(1),
        Kind::Word => Ok(2),
        Kind::Push => Ok(stack::bytes_of(decision.mask) as usize),
        Kind::Rest => Ok(0),
    }
}

// The record of what is told, of n entries, at the front of the unused rest of the journal.
fn write_told(
    rest: &mut [u8],
    mem: &[u8],
    machine: Machine,
    settings: Settings,
    decision: Decision,
    n: usize,
)
    requires { ((length mem.now ≡ 65536) × (is_plain settings decision ≡ true)) × ((n ≤ most_stored) × ((record_length n ≤ length rest.old) × ((m : Machine) → n ≡ length (saved_for settings.ram_top (listed (plan_told m settings mem.now decision).writes) mem.now)))) }
    ensures { (m : Machine) → rest.new ≡ encode machine (saved_for settings.ram_top (listed (plan_told m settings mem.now decision).writes) mem.now) ++ drop (record_length n) rest.old }
{
    write_header(rest, machine);
    rest[COUNT] = n as u8;
    save_told(rest, mem, settings, decision);
    let last = ENTRIES + n * ENTRY;
    rest[last] = (last + 1) as u8;
}

// Where all is plain: whether the record fits is known before a byte of it is written, and it is written before anything is stored.
fn conclude_told(
    mem: &mut [u8],
    journal: &mut [u8],
    twin: Twin,
    settings: Settings,
    decision: Decision,
) -> Outcome
    requires { (is_plain settings decision ≡ true) × Admits mem.old journal.old twin }
    ensures { Leaves result mem.new journal.new (concluded_for settings (plan_told twin.machine settings mem.old decision) (in_hand mem.old journal.old twin)) }
{
    // An outcome is no Result, so no `?` hands the refusal on; and `let .. else` would lose which it is.
    let n = match count_told(settings, decision) {
        Err(refusal) => return refused(twin, refusal),
        Ok(n) => n,
    };
    let size = record_length(n);
    if journal.len() - twin.bytes < size {
        return refused(twin, Refusal::JournalFull);
    }
    write_told(
        &mut journal[twin.bytes..],
        mem,
        twin.machine,
        settings,
        decision,
        n,
    );
    let report = calls::carry(mem, twin.machine, settings, decision);
    Outcome {
        devices: Writes::none(),
        twin: twin.after(report.machine, size),
        reads: report.reads,
        writes: report.writes,
        answer: Ok(()),
    }
}

// By way of the list of writes.
fn record_list(
    mem: &mut [u8],
    journal: &mut [u8],
    twin: Twin,
    settings: Settings,
    decision: Decision,
) -> Outcome
    requires { Admits mem.old journal.old twin }
    ensures { Leaves result mem.new journal.new (concluded_for settings (fenced settings twin.machine (plan_told twin.machine settings mem.old decision)) (in_hand mem.old journal.old twin)) }
{
    let plan = calls::plan_of(mem, twin.machine, settings, decision);
    conclude(mem, journal, twin, settings, plan)
}

// The same, with a value of its own for what it returns: the outcome of a step that is plain then stays in registers.
fn record_rest(
    mem: &mut [u8],
    journal: &mut [u8],
    twin: Twin,
    settings: Settings,
    decision: Decision,
) -> Outcome
    requires { Admits mem.old journal.old twin }
    ensures { Leaves result mem.new journal.new (concluded_for settings (fenced settings twin.machine (plan_told twin.machine settings mem.old decision)) (in_hand mem.old journal.old twin)) }
{
    let outcome = record_list(mem, journal, twin, settings, decision);
    outcome
}

// What was decided, recorded: plain, or by way of the list.
fn record_decided(
    mem: &mut [u8],
    journal: &mut [u8],
    twin: Twin,
    settings: Settings,
    decision: Decision,
) -> Outcome
    requires { Admits mem.old journal.old twin }
    ensures { Leaves result mem.new journal.new (concluded_for settings (fenced settings twin.machine (plan_told twin.machine settings mem.old decision)) (in_hand mem.old journal.old twin)) }
{
    if calls::is_plain(decision, settings) {
        return conclude_told(mem, journal, twin, settings, decision);
    }
    let outcome = record_rest(mem, journal, twin, settings, decision);
    outcome
}

// 2 while waiting, then the instruction.
fn record_step(mem: &mut [u8], journal: &mut [u8], twin: Twin, settings: Settings) -> Outcome
    requires { Admits mem.old journal.old twin }
    ensures { Leaves result mem.new journal.new (concluded_for settings (step_plan mem.old twin.machine settings) (in_hand mem.old journal.old twin)) }
{
    match twin.machine.wait {
        Wait::Running => {
            let decision = calls::decide(mem, twin.machine, settings);
            record_decided(mem, journal, twin, settings, decision)
        }
        Wait::Cwai | Wait::Sync => refused(twin, Refusal::Waiting),
    }
}

pub fn step(mem: &mut [u8], journal: &mut [u8], twin: Twin, settings: Settings) -> Outcome
    ensures leaves { Leaves result mem.new journal.new (stepped settings (in_hand mem.old journal.old twin)) }
    ensures typed { Typed (in_hand mem.old journal.old twin) }
{
    if let Err(refusal) = admits(mem.len(), journal.len(), twin.records, twin.bytes) {
        return refused(twin, refusal);
    }
    record_step(mem, journal, twin, settings)
}
