// Runs a loop so many steps that are not recorded, so that what they execute can be counted (`tools/bench`, docs/PERFORMANCE.md). It is a
// program of its own: with a second call of a step in a program the compiler builds the step in at neither.
#![tactic(auto)]

use costing::Memory;
use machine::Machine;
use std::io;

fn steps(mem: &mut Memory, machine: Machine, count: u32) -> Machine {
    let settings = costing::settings();
    let mut current = machine;
    for _ in 0..count {
        current = calls::step(mem, current, settings).machine;
    }
    current
}

fn main(rt: HostRuntime) -> io::Result<()> {
    let mut head = [0u8; costing::HEAD];
    let _ = streams::read_full(&mut rt.stdin(), &mut head)?;
    let mut code = [0u8; costing::LOOP];
    let _ = streams::read_full(&mut rt.stdin(), &mut code)?;
    let mut mem = [0u8; costing::BYTES];
    costing::fill(&mut mem, &code);
    let machine = steps(&mut mem, costing::start(), costing::count_of(head));
    rt.write_all(&costing::report(machine, 0))
}
