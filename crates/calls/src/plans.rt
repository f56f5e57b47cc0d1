// A call's plan, and how it is carried out. Public for the recorded calls, and for another engine that makes plans of its own.
ghost use Rattle.std.specs.Prelude.{◌≡◌, length};
ghost use Rattle.memory.specs.Writes.{listed};
ghost use Rattle.calls.specs.Plans.{refused_with, accepted, ended_by, carried_out, memory_with};

use super::{Plan, Report};
use answers::Refusal;
use machine::{Effect, Machine, Settings};
use memory::Writes;

// A refused call leaves the machine and writes nothing.
pub fn refused(machine: Machine, refusal: Refusal) -> Plan
    ensures { result ≡ refused_with machine refusal }
{
    Plan {
        answer: Err(refusal),
        ..accept(machine, 0)
    }
}

// The machine changes, and nothing is written.
pub fn accept(machine: Machine, reads: u8) -> Plan
    ensures { result ≡ accepted machine reads }
{
    Plan {
        writes: Writes::none(),
        machine,
        reads,
        answer: Ok(()),
    }
}

// What an effect comes to: its refusal, or the machine `after` it and what is to be written. A plan is no Result, so that an arm hands the
// refusal on, and no `?`.
pub fn by_effect(machine: Machine, effect: Effect, after: Machine, reads: u8) -> Plan
    ensures { result ≡ ended_by effect.answer machine effect.writes after reads }
{
    match effect.answer {
        Err(refusal) => refused(machine, refusal),
        Ok(()) => Plan {
            writes: effect.writes,
            ..accept(after, reads)
        },
    }
}

// At most twelve.
fn how_many(writes: Writes) -> u8
    ensures { result ≡ length (listed writes) }
{
    writes.count.min(12) as u8
}

pub fn carry_out(mem: &mut [u8], settings: Settings, plan: Plan) -> Report
    ensures { (result ≡ carried_out settings plan) × (mem.new ≡ memory_with settings plan mem.old) }
{
    Report {
        devices: memory::store_all(mem, settings.ram_top, plan.writes),
        machine: plan.machine,
        reads: plan.reads,
        writes: how_many(plan.writes),
        answer: plan.answer,
    }
}
