// One step: what it does is decided first, and then done.
ghost use Rattle.std.specs.Prelude.{◌≡◌, ◌≤◌, true, false, length};
ghost use Rattle.registers.specs.Names.{stack_word};
ghost use Rattle.registers.specs.RegisterSet.{word_of};
ghost use Rattle.machine.specs.Effect.{changes};
ghost use Rattle.machine.specs.declared.Wait.TheVariants.{Running};
ghost use Rattle.stack.specs.Pushing.{bytes_pushed, pushed};
ghost use Rattle.calls.specs.Plans.{refused_with, fenced, carried_out, memory_with};
ghost use Rattle.calls.specs.Steps.{after_instruction, finished, decoded_to, planned, step_plan, step_of, memory_after_step};
ghost use Rattle.calls.specs.Decisions.{plan_told, met_no_device, is_plain};

use super::decisions::{Decision, Kind, decide, is_plain};
use super::plans::{accept, by_effect, carry_out, refused};
use super::{Plan, Report, plain};
use answers::Refusal;
use machine::{Effect, Machine, Settings, Wait, bars};
use memory::{Write, Writes};
use registers::Set;
use u8oru16::u8u16;

// An instruction that is carried out counts once, and its cycles are added; once NMI is armed, it stays so.
fn counted(machine: Machine, cycles: u16, arms: bool, regs: Set, wait: Wait) -> Machine
    ensures { result ≡ after_instruction machine cycles arms regs wait }
{
    Machine {
        cycles: machine.cycles.wrapping_add(cycles as u64),
        instructions: machine.instructions.wrapping_add(1),
        regs,
        wait,
        armed: machine.armed | arms,
    }
}

// The same where what was decided leaves the machine running.
fn advance(machine: Machine, decision: Decision, regs: Set) -> Machine
    ensures { result ≡ after_instruction machine decision.cycles decision.arms regs Running }
{
    counted(machine, decision.cycles, decision.arms, regs, Wait::Running)
}

// An instruction that changes registers alone: no list of writes is carried along for it.
fn change(machine: Machine, decision: Decision) -> Plan
    ensures { result ≡ finished machine decision.cycles decision.arms decision.reads (changes decision.regs) }
{
    accept(advance(machine, decision, decision.regs), decision.reads)
}

// An operation's effect as a plan: its refusal, or the machine after the instruction and what is to be written.
// Its numbers are no `Decision`: an engine that decides nothing calls it too (crate training).
pub fn finish(machine: Machine, cycles: u16, arms: bool, reads: u8, effect: Effect) -> Plan
    ensures { result ≡ finished machine cycles arms reads effect }
{
    let after = counted(machine, cycles, arms, effect.regs, effect.wait);
    by_effect(machine, effect, after, reads)
}

// The list of writes of what was decided.
fn plan_free(mem: &[u8], machine: Machine, settings: Settings, decision: Decision) -> Plan
    ensures { result ≡ plan_told machine settings mem.now decision }
{
    let Decision {
        regs,
        cycles,
        at,
        reads,
        arms,
        ..
    } = decision;
    let effect = match decision.kind {
        Kind::Refused => return refused(machine, decision.refusal),
        Kind::Change => return change(machine, decision),
        Kind::Byte => {
            // The value of a byte is below 256: the remainder shows that nothing is cut.
            let one = Write {
                at,
                byte: (decision.value % 256) as u8,
                system: false,
            };
            Effect::stores(regs, Writes::none().add(one))
        }
        Kind::Word => Effect::stores(regs, Writes::none().add_word(at, decision.value, false)),
        Kind::Push => stack::push(regs, decision.own, decision.mask, false),
        Kind::Rest => evaluate::evaluate_memory(decision.op, settings, mem, regs, at),
    };
    finish(machine, cycles, arms, reads, effect)
}

// What a plan would store is judged once it is listed. Each plan of a step passes here.
pub fn fence(settings: Settings, machine: Machine, plan: Plan) -> Plan
    ensures { result ≡ fenced settings machine plan }
{
    if bars(settings, plan.writes) {
        return refused(machine, Refusal::Fenced);
    }
    plan
}

// What was decided, by way of the list of writes.
pub fn plan_of(mem: &[u8], machine: Machine, settings: Settings, decision: Decision) -> Plan
    ensures { result ≡ fenced settings machine (plan_told machine settings mem.now decision) }
{
    fence(
        settings,
        machine,
        plan_free(mem, machine, settings, decision),
    )
}

// A machine that is running.
fn plan_running(mem: &[u8], machine: Machine, settings: Settings) -> Plan
    ensures { result ≡ fenced settings machine (planned mem.now machine settings (decoded_to mem.now machine.regs)) }
{
    let decision = decide(mem, machine, settings);
    plan_of(mem, machine, settings, decision)
}

// What a step will do: 1 by the memory's length, 2 while waiting, then as the instruction meets them.
pub fn plan_step(mem: &[u8], machine: Machine, settings: Settings) -> Plan
    ensures { result ≡ step_plan mem.now machine settings }
{
    if mem.len() != 65536 {
        return refused(machine, Refusal::MemoryLength);
    }
    match machine.wait {
        Wait::Running => plan_running(mem, machine, settings),
        Wait::Cwai | Wait::Sync => refused(machine, Refusal::Waiting),
    }
}

// A step that is done, whose writes, if it has some, met no device.
fn did(machine: Machine, decision: Decision, writes: u8, regs: Set) -> Report
    ensures { result ≡ met_no_device machine decision.cycles decision.arms decision.reads writes regs }
{
    Report {
        devices: Writes::none(),
        machine: advance(machine, decision, regs),
        reads: decision.reads,
        writes,
        answer: Ok(()),
    }
}

// Written out, as `did` is: of the five fields the two share only the first.
fn refuse(machine: Machine, refusal: Refusal) -> Report
    ensures { (s : Settings) → result ≡ carried_out s (refused_with machine refusal) }
{
    Report {
        devices: Writes::none(),
        machine,
        reads: 0,
        writes: 0,
        answer: Err(refusal),
    }
}

// The registers of a post-byte are stored, and the pointer in use is lowered.
fn carry_push(mem: &mut [u8], machine: Machine, decision: Decision) -> Report
    requires { (length mem.old ≡ 65536) × ((word_of decision.regs (stack_word decision.own) ≤ 0xFF00) × (bytes_pushed decision.mask ≤ word_of decision.regs (stack_word decision.own))) }
    ensures { (s : Settings) → word_of decision.regs (stack_word decision.own) ≤ s.ram_top → (result ≡ carried_out s (finished machine decision.cycles decision.arms decision.reads (pushed decision.regs decision.own decision.mask false))) × (mem.new ≡ memory_with s (finished machine decision.cycles decision.arms decision.reads (pushed decision.regs decision.own decision.mask false)) mem.old) }
{
    let Decision {
        regs,
        own,
        mask,
        ..
    } = decision;
    let word = own.word();
    let top = regs.word(word);
    let pointer = plain::push(mem, regs, own, top, mask);
    // As many bytes as the pointer fell.
    let writes = (top - pointer) as u8;
    did(machine, decision, writes, regs.with_word(word, pointer))
}

// Where all is plain, nothing but the stores is to be done. It asks the kinds again that `plan_free` asks, and makes no list of writes
// (docs/PERFORMANCE.md).
fn carry_plain(mem: &mut [u8], machine: Machine, settings: Settings, decision: Decision) -> Report
    requires { (length mem.old ≡ 65536) × (is_plain settings decision ≡ true) }
    ensures { (result ≡ carried_out settings (plan_told machine settings mem.old decision)) × (mem.new ≡ memory_with settings (plan_told machine settings mem.old decision) mem.old) }
{
    match decision.kind {
        Kind::Refused => refuse(machine, decision.refusal),
        Kind::Change | Kind::Rest => did(machine, decision, 0, decision.regs),
        Kind::Byte => {
            plain::put(mem, decision.at, u8u16::u8((decision.value % 256) as u8));
            did(machine, decision, 1, decision.regs)
        }
        Kind::Word => {
            plain::put(mem, decision.at, u8u16::u16(decision.value));
            did(machine, decision, 2, decision.regs)
        }
        Kind::Push => carry_push(mem, machine, decision),
    }
}

// By way of the list of writes.
fn carry_list(mem: &mut [u8], machine: Machine, settings: Settings, decision: Decision) -> Report
    ensures { (result ≡ carried_out settings (fenced settings machine (plan_told machine settings mem.old decision))) × (mem.new ≡ memory_with settings (fenced settings machine (plan_told machine settings mem.old decision)) mem.old) }
{
    let plan = plan_of(mem, machine, settings, decision);
    carry_out(mem, settings, plan)
}

// What was decided is done: the machine after it, and memory.
pub fn carry(mem: &mut [u8], machine: Machine, settings: Settings, decision: Decision) -> Report
    ensures { (result ≡ carried_out settings (fenced settings machine (plan_told machine settings mem.old decision))) × (mem.new ≡ memory_with settings (fenced settings machine (plan_told machine settings mem.old decision)) mem.old) }
{
    if mem.len() == 65536 {
        if is_plain(decision, settings) {
            return carry_plain(mem, machine, settings, decision);
        }
    }
    // Its own value, so that the other arm's stays in registers.
    let report = carry_list(mem, machine, settings, decision);
    report
}

// The same for a step that is not recorded. The list's way is called at two places here, and so is not compiled in: the rest is small
// enough to be compiled into the loop that makes the steps (docs/PERFORMANCE.md).
fn carry_unrecorded(
    mem: &mut [u8],
    machine: Machine,
    settings: Settings,
    decision: Decision,
) -> Report
    ensures { (result ≡ carried_out settings (fenced settings machine (plan_told machine settings mem.old decision))) × (mem.new ≡ memory_with settings (fenced settings machine (plan_told machine settings mem.old decision)) mem.old) }
{
    if mem.len() == 65536 {
        if is_plain(decision, settings) {
            return carry_plain(mem, machine, settings, decision);
        }
        let m = machine;
        let s = settings;
        let d = decision;
        let listed = carry_list(mem, m, s, d);
        return listed;
    }
    let report = carry_list(mem, machine, settings, decision);
    report
}

// A machine that is running.
fn step_running(mem: &mut [u8], machine: Machine, settings: Settings) -> Report
    ensures { (result ≡ carried_out settings (fenced settings machine (planned mem.old machine settings (decoded_to mem.old machine.regs)))) × (mem.new ≡ memory_with settings (fenced settings machine (planned mem.old machine settings (decoded_to mem.old machine.regs))) mem.old) }
{
    let decision = decide(mem, machine, settings);
    carry_unrecorded(mem, machine, settings, decision)
}

pub fn step(mem: &mut [u8], machine: Machine, settings: Settings) -> Report
    ensures { (result ≡ step_of mem.old machine settings) × (mem.new ≡ memory_after_step mem.old machine settings) }
{
    if mem.len() != 65536 {
        return refuse(machine, Refusal::MemoryLength);
    }
    match machine.wait {
        Wait::Running => step_running(mem, machine, settings),
        Wait::Cwai | Wait::Sync => refuse(machine, Refusal::Waiting),
    }
}
