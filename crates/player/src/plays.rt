// What the run program prints: each operation of a run file is a recorded call, and gives a line.
ghost use Rattle.std.specs.Prelude.{◌≡◌, length, Ok};
ghost use Rattle.std.proofs.lemmas.List.Edits.{sets};
ghost use Rattle.journal.specs.Recorded.{fresh_twin, in_hand};
ghost use Rattle.runfile.specs.Format.{loaded, parsed};
ghost use Rattle.player.specs.Plays.{zeros, journal_length, acted, wanted_by, shown_of, LeavesShown, played, printed, run_settings};

use super::{put_call, put_refusal, zeroed_memory};
use answers::Refusal;
use calls::InterruptType;
use journal::{CallType, Outcome, Twin};
use machine::Settings;
use runfile::{FileSettings, Operation, Start};
use training::{Engine, First, Second};

// Room for 1,920 records without an entry.
const JOURNAL: usize = 65_280;

fn empty_journal() -> [u8; JOURNAL]
    ensures { result ≡ zeros journal_length }
{
    [0; JOURNAL]
}

// A recorded call, or undo.
#[derive(Clone, Copy)]
enum Wanted {
    Call(CallType),
    Undo,
}

fn wanted_by(operation: Operation) -> Wanted
    ensures { result ≡ wanted_by operation }
{
    match operation {
        Operation::Step => Wanted::Call(CallType::Step),
        Operation::Irq => Wanted::Call(CallType::Interrupt(InterruptType::Irq)),
        Operation::Firq => Wanted::Call(CallType::Interrupt(InterruptType::Firq)),
        Operation::Nmi => Wanted::Call(CallType::Interrupt(InterruptType::Nmi)),
        Operation::Reset => Wanted::Call(CallType::Reset),
        Operation::Undo => Wanted::Undo,
    }
}

// What is printed of a call. Its list of device writes is not handed on, so that it is not copied where the arms of `act` join.
#[derive(Clone, Copy)]
struct Shown {
    twin: Twin,
    answer: Result<(), Refusal>,
}

fn shown_of(outcome: Outcome) -> Shown
    ensures { result ≡ shown_of outcome }
{
    Shown {
        twin: outcome.twin,
        answer: outcome.answer,
    }
}

// All recorded calls are made at one place, so that the call is compiled in once.
fn act<E: Engine>(
    mem: &mut [u8],
    journal: &mut [u8],
    twin: Twin,
    settings: Settings,
    operation: Operation,
) -> Shown
    ensures { LeavesShown result mem.new journal.new (acted settings operation (in_hand mem.old journal.old twin)) }
{
    match wanted_by(operation) {
        Wanted::Call(which) => shown_of(E::call(mem, journal, twin, settings, which)),
        Wanted::Undo => shown_of(journal::undo(mem, journal, twin)),
    }
}

// A run allows all stores.
fn run_settings(given: FileSettings) -> Settings
    ensures { result ≡ run_settings given }
{
    Settings::new(given.ram_top, given.flags)
}

// Plays the operations of a sound file in order, and returns the length of the text.
fn play_all<E: Engine>(
    out: &mut [u8],
    file: &[u8],
    mem: &mut [u8],
    journal: &mut [u8],
    from: Start,
) -> usize
    requires { Ok from ≡ loaded (length file.now) (parsed file.now) }
    ensures { (result ≡ length (played (parsed file.now) (in_hand mem.old journal.old fresh_twin))) × (out.new ≡ sets out.old 0 (played (parsed file.now) (in_hand mem.old journal.old fresh_twin))) }
{
    let settings = run_settings(from.settings);
    let mut twin = Twin::fresh();
    let mut used = 0;
    for at in from.operations..file.len() {
        let Some(operation) = runfile::operation_at(file, at) else {
            return used;
        };
        let shown = act::<E>(mem, journal, twin, settings, operation);
        twin = shown.twin;
        used += put_call(out, used, shown.answer, twin.machine);
    }
    used
}

fn play_on<E: Engine>(file: &[u8], out: &mut [u8]) -> usize
    ensures { (result ≡ length (printed file.now)) × (out.new ≡ sets out.old 0 (printed file.now)) }
{
    let mut mem = zeroed_memory();
    match runfile::load(&mut mem, file) {
        Err(refusal) => put_refusal(out, refusal),
        Ok(from) => {
            let mut journal = empty_journal();
            play_all::<E>(out, file, &mut mem, &mut journal, from)
        }
    }
}

// Writes what the run program prints at the front of `out`, and returns its length.
pub fn play(file: &[u8], out: &mut [u8]) -> usize
    ensures { (result ≡ length (printed file.now)) × (out.new ≡ sets out.old 0 (printed file.now)) }
{
    play_on::<First>(file, out)
}

// The same, on the second engine.
pub fn play_second(file: &[u8], out: &mut [u8]) -> usize
    ensures { (result ≡ length (printed file.now)) × (out.new ≡ sets out.old 0 (printed file.now)) }
{
    play_on::<Second>(file, out)
}
