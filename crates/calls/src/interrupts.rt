// IRQ, FIRQ and NMI.
ghost use Rattle.std.specs.Prelude.{◌≡◌};
ghost use Rattle.calls.specs.Interrupts.{vector_of, is_held_off, taken, after_held_off, of_effect, interrupt_plan, interrupt_of, memory_after_interrupt};

use super::plans::{accept, by_effect, carry_out, refused};
use super::{InterruptType, Plan, Report};
use answers::Refusal;
use machine::{Effect, Machine, Settings, Wait};
use registers::{CCBit, Set};
use vectors::Vector;

impl InterruptType {
    fn vector(self) -> Vector
        ensures { result ≡ vector_of self }
    {
        match self {
            InterruptType::Irq => Vector::Irq,
            InterruptType::Firq => Vector::Firq,
            InterruptType::Nmi => Vector::Nmi,
        }
    }

    // IRQ and FIRQ by their mask, NMI until S is loaded.
    fn is_held_off(self, machine: Machine) -> bool
        ensures { result ≡ is_held_off self machine }
    {
        match self {
            InterruptType::Irq => machine.regs.cc.is_set(CCBit::I),
            InterruptType::Firq => machine.regs.cc.is_set(CCBit::F),
            InterruptType::Nmi => !machine.armed,
        }
    }
}

// In CWAI the registers are stacked already: nothing is stacked again.
fn take(mem: &[u8], settings: Settings, wait: Wait, regs: Set, vector: Vector) -> Effect
    ensures { result ≡ taken wait mem.now settings regs vector }
{
    match wait {
        Wait::Running | Wait::Sync => vectors::serve(mem, settings, regs, vector),
        Wait::Cwai => vectors::take_vector(mem, settings, regs, Effect::changes(regs), vector),
    }
}

fn after_held_off(wait: Wait) -> Wait
    ensures { result ≡ after_held_off wait }
{
    match wait {
        Wait::Sync => Wait::Running,
        other => other,
    }
}

fn finish(machine: Machine, reads: u8, effect: Effect) -> Plan
    ensures { result ≡ of_effect machine reads effect effect.answer }
{
    let after = machine.with_registers(effect.regs, Wait::Running);
    by_effect(machine, effect, after, reads)
}

// What an interrupt will do: 1 by the memory's length; then, unless it is held off, 8, 28 and 9 as they are met.
pub fn plan_interrupt(
    mem: &[u8],
    machine: Machine,
    settings: Settings,
    which: InterruptType,
) -> Plan
    ensures { result ≡ interrupt_plan mem.now machine settings which }
{
    if mem.len() != 65536 {
        return refused(machine, Refusal::MemoryLength);
    }
    if which.is_held_off(machine) {
        let wait = after_held_off(machine.wait);
        return accept(machine.with_registers(machine.regs, wait), 0);
    }
    let effect = take(mem, settings, machine.wait, machine.regs, which.vector());
    // The vector's two bytes and the one that it leads to.
    finish(machine, 3, effect)
}

pub fn interrupt(
    mem: &mut [u8],
    machine: Machine,
    settings: Settings,
    which: InterruptType,
) -> Report
    ensures { (result ≡ interrupt_of mem.old machine settings which) × (mem.new ≡ memory_after_interrupt mem.old machine settings which) }
{
    let plan = plan_interrupt(mem, machine, settings, which);
    carry_out(mem, settings, plan)
}
