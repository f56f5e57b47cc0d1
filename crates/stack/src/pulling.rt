// PULS, PULU, and the returns RTS and RTI.
ghost use Rattle.std.specs.Prelude.{◌≡◌, ◌+◌, ◌*◌, ◌<◌, ◌≤◌, reverse, drop};
ghost use Rattle.registers.specs.declared.Stack.TheVariants.{S};
ghost use Rattle.memory.specs.Map.{byte_at, value_at};
ghost use Rattle.machine.specs.Effect.{changes};
ghost use Rattle.stack.specs.Pushing.{order, chosen};
ghost use Rattle.stack.specs.Pulling.{pulled_to, pulled_into, pulls, pulled, returned_from_interrupt};

use super::{bit, named};
use machine::Effect;
use registers::{Name, Set, Stack, Word};
use u8oru16::u8u16;

// The registers and the stack pointer so far.
#[derive(Clone, Copy)]
struct Pulled {
    regs: Set,
    pointer: u16,
}

// A register is pulled: its byte or word is read at the pointer, which is then raised, and wraps.
fn pull_into(mem: &[u8], name: Name, p: Pulled) -> Pulled
    ensures { result ≡ pulled_into mem.now name p }
{
    let size = registers::reg_size(name);
    let value = if size == 2 {
        u8u16::u16(memory::read_u16(mem, p.pointer))
    } else {
        u8u16::u8(memory::read_u8(mem, p.pointer))
    };
    Pulled {
        regs: p.regs.set_register(name, value),
        pointer: p.pointer.wrapping_add(size),
    }
}

// From CC up to PC: four bytes, then four words.
fn pull_all(mem: &[u8], regs: Set, stack: Stack, pointer: u16, mask: u8) -> Pulled
    ensures { result ≡ pulls mem.now (chosen mask (reverse (order stack))) (pulled_to regs pointer) }
{
    let mut p = Pulled { regs, pointer };
    for k in 0..8 {
        if bit(mask, k) {
            p = pull_into(mem, named(stack, k), p);
        }
    }
    p
}

// A byte that the map leaves where it is. Past the end of a short memory it is 0 and no None: `byte_at` has it so.
fn plain_byte(mem: &[u8], at: u16) -> u8
    requires { at < 0xFFE0 }
    ensures { result ≡ byte_at mem.now at }
{
    mem.get(at as usize).copied().unwrap_or(0)
}

// A byte or a word that the map leaves where it is.
fn plain_value(mem: &[u8], at: u16, wide: bool) -> u8u16
    requires { at + 1 < 0xFFE0 }
    ensures { result ≡ value_at mem.now at wide }
{
    let first = plain_byte(mem, at);
    if wide {
        u8u16::new(plain_byte(mem, at + 1), Some(first))
    } else {
        u8u16::u8(first)
    }
}

// The register of bit k, if it is named: what is left to pull then gives what it gave before.
fn pull_register(mem: &[u8], p: Pulled, stack: Stack, mask: u8, k: u8) -> Pulled
    requires { (k < 8) × (p.pointer < 0xFFC0 + 2 * k) }
    ensures { (result.pointer ≤ p.pointer + 2) × (pulls mem.now (chosen mask (drop (k + 1) (reverse (order stack)))) result ≡ pulls mem.now (chosen mask (drop k (reverse (order stack)))) p) }
{
    if !bit(mask, k) {
        return p;
    }
    let name = named(stack, k);
    let size = registers::reg_size(name);
    let value = plain_value(mem, p.pointer, size == 2);
    Pulled {
        regs: p.regs.set_register(name, value),
        pointer: p.pointer + size,
    }
}

// `pull_all` where no byte that is pulled is mapped: the eight bits written out, so that the compiler knows each register.
fn pull_plain(mem: &[u8], regs: Set, stack: Stack, pointer: u16, mask: u8) -> Pulled
    requires { pointer < 0xFFC0 }
    ensures { result ≡ pulls mem.now (chosen mask (reverse (order stack))) (pulled_to regs pointer) }
{
    let cc = pull_register(mem, Pulled { regs, pointer }, stack, mask, 0);
    let a = pull_register(mem, cc, stack, mask, 1);
    let b = pull_register(mem, a, stack, mask, 2);
    let dp = pull_register(mem, b, stack, mask, 3);
    let x = pull_register(mem, dp, stack, mask, 4);
    let y = pull_register(mem, x, stack, mask, 5);
    let other = pull_register(mem, y, stack, mask, 6);
    pull_register(mem, other, stack, mask, 7)
}

// The registers alone change, and no pull is refused; the pointer in use is written last. The effect is made here and not by the caller,
// which would make every step slower (docs/PERFORMANCE.md).
pub fn pull(mem: &[u8], regs: Set, stack: Stack, mask: u8) -> Effect
    ensures { result ≡ changes (pulled mem.now regs stack mask) }
{
    let own = stack.word();
    let pulled = pull_all(mem, regs, stack, regs.word(own), mask);
    Effect::changes(pulled.regs.with_word(own, pulled.pointer))
}

// RTI: E of the CC that is pulled says whether all registers follow, or PC alone.
pub fn return_from_interrupt(mem: &[u8], regs: Set) -> Effect
    ensures { result ≡ changes (returned_from_interrupt mem.now regs) }
{
    let entire = bit(memory::read_u8(mem, regs.s), 7);
    let mask = if entire { 0xFF } else { 0x81 };
    pull(mem, regs, Stack::S, mask)
}

// The registers after PULS or PULU.
pub fn pull_registers(mem: &[u8], regs: Set, stack: Stack, mask: u8) -> Set
    ensures { result ≡ pulled mem.now regs stack mask }
{
    let own = stack.word();
    let pointer = regs.word(own);
    if pointer < 0xFFC0 {
        let plain = pull_plain(mem, regs, stack, pointer, mask);
        return plain.regs.with_word(own, plain.pointer);
    }
    let pulled = pull_all(mem, regs, stack, pointer, mask);
    pulled.regs.with_word(own, pulled.pointer)
}

// The registers after RTS.
pub fn return_from_subroutine(mem: &[u8], regs: Set) -> Set
    ensures { result ≡ pulled mem.now regs S 0x80 }
{
    let pc = memory::read_u16(mem, regs.s);
    regs.with_word(Word::S, regs.s.wrapping_add(2)).with_pc(pc)
}
