// One step of the second engine. What it will do is found first, as a plan, and then done: a refusal has nothing to take back.
ghost use Rattle.std.specs.Prelude.{◌≡◌, ◌+◌, ◌≤◌, Ok};
ghost use Rattle.memory.specs.Map.{byte_at};
ghost use Rattle.evaluate.specs.Arming.{arms};
ghost use Rattle.calls.specs.Steps.{of_decoded, decoded_to, operated, planned, step_plan, step_of, memory_after_step};

use super::costs::operation_extra;
use super::counts::count_reads;
use super::decoding::decode;
use answers::Refusal;
use calls::{Plan, Report, carry_out, fence, finish, refused};
use cycles::{cost, operand_extra};
use decode::Instruction;
use machine::{Machine, Settings, Wait};
use opcodes::Op;
use registers::Set;

// Whether the operation loads S, and so lets NMI in.
fn arms(op: Op, mem: &[u8], ea: u16) -> bool
    ensures { result ≡ arms op (byte_at mem.now ea) }
{
    match op {
        Op::Registers(on) => evaluate::registers_arm(on, mem, ea),
        Op::Memory(on) => evaluate::memory_arms(on, mem, ea),
    }
}

// The operation: what it costs, whether it lets NMI in, how many bytes are read, what it does. `regs` have PC at the next instruction, `ea`
// is the effective address. How far an instruction's end may lie from PC joins two values, so that no type of one of them can hold it.
fn operate(
    mem: &[u8],
    machine: Machine,
    settings: Settings,
    instruction: Instruction,
    regs: Set,
    ea: u16,
) -> Plan
    requires { (machine.regs.pc ≤ instruction.next) × (instruction.next ≤ machine.regs.pc + 5) }
    ensures { result ≡ operated mem.now machine settings instruction regs ea }
{
    let entry = instruction.entry;
    let op = entry.op;
    let extra = operation_extra(op, entry.mode, mem, regs, ea);
    let cycles = cost(entry.cycles, operand_extra(instruction.operand), extra);
    let armed = arms(op, mem, ea);
    let reads = count_reads(mem, instruction, machine.regs, regs, ea);
    let effect = effects::evaluate(op, settings, mem, regs, ea);
    finish(machine, cycles, armed, reads, effect)
}

// The effective address, and then the operation. A plan is no Result (crate calls), so that an arm hands a refusal on here and below.
fn execute(mem: &[u8], machine: Machine, settings: Settings, instruction: Instruction) -> Plan
    requires { (machine.regs.pc ≤ instruction.next) × (instruction.next ≤ machine.regs.pc + 5) }
    ensures { result ≡ planned mem.now machine settings (of_decoded mem.now machine.regs (Ok instruction)) }
{
    match addressing::resolve(mem, machine.regs, instruction.operand, instruction.next) {
        Err(refusal) => refused(machine, refusal),
        Ok(found) => operate(mem, machine, settings, instruction, found.regs, found.ea),
    }
}

// The instruction at PC, by its fields.
fn plan_running(mem: &[u8], machine: Machine, settings: Settings) -> Plan
    ensures { result ≡ planned mem.now machine settings (decoded_to mem.now machine.regs) }
{
    match decode(mem, machine.regs.pc) {
        Err(refusal) => refused(machine, refusal),
        Ok(instruction) => execute(mem, machine, settings, instruction),
    }
}

// What a step will do: 1 by the memory's length, 2 while waiting, then as the instruction meets them; the fence judges last.
pub fn plan_step(mem: &[u8], machine: Machine, settings: Settings) -> Plan
    ensures { result ≡ step_plan mem.now machine settings }
{
    if mem.len() != 65536 {
        return refused(machine, Refusal::MemoryLength);
    }
    match machine.wait {
        Wait::Running => fence(settings, machine, plan_running(mem, machine, settings)),
        Wait::Cwai | Wait::Sync => refused(machine, Refusal::Waiting),
    }
}

pub fn step(mem: &mut [u8], machine: Machine, settings: Settings) -> Report
    ensures { (result ≡ step_of mem.old machine settings) × (mem.new ≡ memory_after_step mem.old machine settings) }
{
    let plan = plan_step(mem, machine, settings);
    carry_out(mem, settings, plan)
}
