// One call, by its letter: recorded, or not.
use super::line;
use super::line::Line;
use calls::Report;
use journal::{Outcome, Twin};
use machine::Settings;
use memory::Writes;
use scenery::interrupt_of;

// What a call leaves: the device writes, the twin, and the number.
// The number and no Result: it is printed, 0 where the call is done.
#[derive(Clone, Copy)]
pub struct Called {
    pub devices: Writes,
    pub twin: Twin,
    pub number: u8,
}

// Not From: `of_report` takes the twin besides, and the two are named alike.
fn of_outcome(outcome: Outcome) -> Called {
    Called {
        devices: outcome.devices,
        twin: outcome.twin,
        number: answers::number(&outcome.answer),
    }
}

fn of_report(twin: Twin, report: Report) -> Called {
    Called {
        devices: report.devices,
        twin: Twin {
            machine: report.machine,
            ..twin
        },
        number: answers::number(&report.answer),
    }
}

// Not one function with `unrecorded`: its calls take a journal and a twin, and return another struct. The letters are matched at once.
fn recorded(
    mem: &mut [u8],
    journal: &mut [u8],
    twin: Twin,
    settings: Settings,
    letter: u8,
) -> Outcome {
    match letter {
        b'S' => journal::step(mem, journal, twin, settings),
        b'R' => journal::reset(mem, journal, twin, settings),
        b'U' => journal::undo(mem, journal, twin),
        _ => journal::interrupt(mem, journal, twin, settings, interrupt_of(letter)),
    }
}

fn unrecorded(mem: &mut [u8], twin: Twin, settings: Settings, letter: u8) -> Report {
    let machine = twin.machine;
    match letter {
        b'S' => calls::step(mem, machine, settings),
        b'R' => calls::reset(mem, machine, settings),
        _ => calls::interrupt(mem, machine, settings, interrupt_of(letter)),
    }
}

pub fn call(
    mem: &mut [u8],
    journal: &mut [u8],
    line: &Line,
    twin: Twin,
    settings: Settings,
    letter: u8,
) -> Called {
    if line::is_recorded(line) {
        of_outcome(recorded(mem, journal, twin, settings, letter))
    } else {
        of_report(twin, unrecorded(mem, twin, settings, letter))
    }
}
