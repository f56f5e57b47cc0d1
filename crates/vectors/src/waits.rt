// CWAI and SYNC.
ghost use Rattle.std.specs.Prelude.{◌≡◌};
ghost use Rattle.vectors.specs.Waits.{waiting, synchronized};

use machine::{Effect, Wait};
use registers::Set;

// CWAI: the condition codes are masked, E is set, and all registers are stacked before the wait.
pub fn wait_for_interrupt(regs: Set, m: u8) -> Effect
    ensures { result ≡ waiting regs m }
{
    let frame = stack::frame(operations::and_codes(regs, m), true);
    // An effect is no Result: a refused one gives back the registers from before. So an arm hands the refusal on, and no `?`.
    match frame.answer {
        Err(refusal) => Effect::refuses(regs, refusal),
        Ok(()) => Effect {
            wait: Wait::Cwai,
            ..frame
        },
    }
}

pub fn synchronize(regs: Set) -> Effect
    ensures { result ≡ synchronized regs }
{
    Effect {
        wait: Wait::Sync,
        ..Effect::changes(regs)
    }
}
