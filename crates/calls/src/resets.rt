// Reset: NMI is held off from here on. Neither a mask nor the byte that the vector leads to is looked at: 1 alone refuses it.
ghost use Rattle.std.specs.Prelude.{◌≡◌};
ghost use Rattle.calls.specs.Resets.{reset_plan, reset_of, memory_after_reset};

use super::plans::{accept, carry_out, refused};
use super::{Plan, Report};
use answers::Refusal;
use machine::{Machine, Settings, Wait};
use registers::Set;
use vectors::Vector;

pub fn plan_reset(mem: &[u8], machine: Machine) -> Plan
    ensures { result ≡ reset_plan mem.now machine }
{
    if mem.len() != 65536 {
        return refused(machine, Refusal::MemoryLength);
    }
    let pc = memory::read_u16(mem, Vector::Reset.address());
    let regs = operations::jump(Set::reset(), pc);
    accept(machine.with_registers(regs, Wait::Running).marked(false), 2)
}

// As `interrupt` does: with a closure that makes the plan, one function for both would be no shorter than these two lines.
pub fn reset(mem: &mut [u8], machine: Machine, settings: Settings) -> Report
    ensures { (result ≡ reset_of mem.old machine settings) × (mem.new ≡ memory_after_reset mem.old machine settings) }
{
    let plan = plan_reset(mem, machine);
    carry_out(mem, settings, plan)
}
