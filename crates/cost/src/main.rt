// Runs a loop so many recorded steps, so that what they execute can be counted (`tools/bench`, docs/PERFORMANCE.md). The letter of its
// input is R for steps that stay, B for steps that are each taken back. It prints the low bytes of cycles and of the count of records.
#![tactic(auto)]

ghost use Rattle.std.specs.Prelude.{◌<◌};

use costing::Memory;
use journal::Twin;
use machine::{Machine, Settings};
use std::io;

// 70 bytes for each of 10,000 records: none is longer.
const ROOM: usize = 700_000;

type Journal = [u8; ROOM];

fn settings() -> Settings {
    costing::settings()
}

fn start() -> Twin {
    Twin {
        machine: costing::start(),
        ..Twin::fresh()
    }
}

// Recorded steps, each taken back at once if `back`. A bool and no closure: each closure would have a loop of its own, and with two calls
// of the step in a program the compiler builds it in at neither.
fn recorded(mem: &mut Memory, journal: &mut Journal, from: Twin, count: u32, back: bool) -> Twin {
    let mut twin = from;
    for _ in 0..count {
        twin = journal::step(mem, journal, twin, settings()).twin;
        if back {
            twin = journal::undo(mem, journal, twin).twin;
        }
    }
    twin
}

// So many steps; the journal is emptied before each batch of them. The letter of the input becomes a bool here, its one use.
fn run(mem: &mut Memory, calls: u8, count: u32, most: u32) -> Twin
    requires { 0 < most }
{
    let mut journal = [0u8; ROOM];
    let mut twin = start();
    let mut left = count;
    // No `for`: the last batch takes what is left, and `step_by` would count the steps and then need that number again.
    while left > 0 {
        let n = left.min(most);
        twin.records = 0;
        twin.bytes = 0;
        twin = recorded(mem, &mut journal, twin, n, calls == b'B');
        left -= n;
    }
    twin
}

fn main(rt: HostRuntime) -> io::Result<()> {
    let mut head = [0u8; costing::HEAD];
    let _ = streams::read_full(&mut rt.stdin(), &mut head)?;
    let mut code = [0u8; costing::LOOP];
    let _ = streams::read_full(&mut rt.stdin(), &mut code)?;
    let mut mem = [0u8; costing::BYTES];
    costing::fill(&mut mem, &code);
    let twin = run(
        &mut mem,
        head[0],
        costing::count_of(head),
        costing::batch_of(head),
    );
    rt.write_all(&costing::report(twin.machine, twin.records))
}
