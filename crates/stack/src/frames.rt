// What an interrupt stacks.
ghost use Rattle.std.specs.Prelude.{◌≡◌};
ghost use Rattle.stack.specs.Frames.{framed};

use super::pushing::push;
use machine::Effect;
use registers::{CCBit, Set, Stack};

// All registers with E set, or PC and CC alone with E clear, as System writes.
pub fn frame(regs: Set, entire: bool) -> Effect
    ensures { result ≡ framed regs entire }
{
    let mask = if entire { 0xFF } else { 0x81 };
    let codes = regs.cc.set(CCBit::E, entire);
    let pushed = push(operations::with_codes(regs, codes), Stack::S, mask, true);
    // An effect is no Result: a refused one gives back the registers from before. So an arm hands the refusal on, and no `?`.
    match pushed.answer {
        Err(refusal) => Effect::refuses(regs, refusal),
        Ok(()) => pushed,
    }
}
