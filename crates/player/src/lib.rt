// What the programs print: a line for each call, or a refusal's number alone.
#![tactic(auto)]

mod boots;
mod plays;

ghost use Rattle.std.specs.Prelude.{◌≡◌, length};
ghost use Rattle.std.proofs.lemmas.List.Edits.{sets};
ghost use Rattle.player.specs.Plays.{zeros, call_line, refusal_line};

use answers::Refusal;
pub use boots::boot;
use machine::Machine;
pub use plays::{play, play_second};

const MEMORY: usize = 0x10000;

// A function of its own, as in `listing`, so that the proof of its caller need not open the array; each says it by its own definition.
fn zeroed_memory() -> [u8; MEMORY]
    ensures { result ≡ zeros 65536 }
{
    [0; MEMORY]
}

// Writes the line of a call at a place, and returns its length.
// Output and place stand apart, as in `text::put`.
fn put_call(out: &mut [u8], at: usize, answer: Result<(), Refusal>, machine: Machine) -> usize
    ensures { (result ≡ length (call_line answer machine)) × (out.new ≡ sets out.old at (call_line answer machine)) }
{
    let regs = machine.regs;
    text::line(
        answers::number(&answer),
        regs.pc,
        regs.cc.reg,
        machine.cycles,
    )
    .put(out, at)
}

// Writes the one line of a refused input, and returns its length.
// Each crate that prints has this line for itself: `text` knows no refusals.
fn put_refusal(out: &mut [u8], refusal: Refusal) -> usize
    ensures { (result ≡ length (refusal_line refusal)) × (out.new ≡ sets out.old 0 (refusal_line refusal)) }
{
    text::alone(refusal.number()).put(out, 0)
}
