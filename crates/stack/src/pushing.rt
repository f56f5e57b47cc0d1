// PSHS, PSHU, and the calls BSR and JSR, which push PC.
ghost use Rattle.std.specs.Prelude.{◌≡◌, ◌≤◌};
ghost use Rattle.memory.specs.Writes.{writes_of};
ghost use Rattle.stack.specs.Pushing.{registers_named, bytes_pushed, pushes, pushed, jumped_to_subroutine};

use super::{bit, named};
use answers::Refusal;
use machine::Effect;
use memory::{Write, Writes};
use registers::{Set, Stack};

// Four words, then four bytes, downwards from the pointer. The list is filled in place: a copy of it for each register would cost more than
// the push.
fn push_all(regs: Set, stack: Stack, pointer: u16, mask: u8, system: bool) -> Writes
    requires { bytes_pushed mask ≤ pointer }
    ensures { result ≡ writes_of (pushes regs system pointer (registers_named stack mask)) }
{
    let mut list = Writes::none().list;
    let mut count = 0;
    let mut at = pointer;
    for k in (4..8).rev() {
        if bit(mask, k) {
            let word = regs.get_register(named(stack, k)).u16();
            let [high, low] = word.to_be_bytes();
            at -= 2;
            list[count] = Write {
                at,
                byte: high,
                system,
            };
            list[count + 1] = Write {
                at: at + 1,
                byte: low,
                system,
            };
            count += 2;
        }
    }
    for k in (0..4).rev() {
        if bit(mask, k) {
            let byte = regs.get_register(named(stack, k)).lsb();
            at -= 1;
            list[count] = Write { at, byte, system };
            count += 1;
        }
    }
    Writes { count, list }
}

// How many bits of a digit are set.
const BITS: [u8; 16] = [0, 1, 1, 2, 1, 2, 2, 3, 1, 2, 2, 3, 2, 3, 3, 4];

// How many bytes a post-byte names. A table and no `count_ones`, so that it is compiled in (docs/PERFORMANCE.md).
pub fn bytes_of(mask: u8) -> u8
    ensures { result ≡ bytes_pushed mask }
{
    2 * BITS[(mask / 16) as usize] + BITS[(mask % 16) as usize]
}

pub fn push(regs: Set, stack: Stack, mask: u8, system: bool) -> Effect
    ensures { result ≡ pushed regs stack mask system }
{
    let pointer = regs.word(stack.word());
    let bytes = bytes_of(mask) as u16;
    if pointer < bytes {
        return Effect::refuses(regs, Refusal::StackTooSmall);
    }
    let writes = push_all(regs, stack, pointer, mask, system);
    Effect::stores(regs.with_word(stack.word(), pointer - bytes), writes)
}

// JSR and BSR: the program pushes, so the return address is no System write.
pub fn jump_to_subroutine(regs: Set, ea: u16) -> Effect
    ensures { result ≡ jumped_to_subroutine regs ea }
{
    let pushed = push(regs, Stack::S, 0x80, false);
    // An effect is no Result: a refused one gives back the registers from before. So an arm hands the refusal on, and no `?`.
    match pushed.answer {
        Err(refusal) => Effect::refuses(regs, refusal),
        Ok(()) => Effect::stores(operations::jump(pushed.regs, ea), pushed.writes),
    }
}
