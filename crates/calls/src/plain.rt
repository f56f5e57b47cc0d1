// Stores where nothing is mapped and no device is: below FF00 and at or below ram_top.
ghost use Rattle.std.specs.Prelude.{◌≡◌, ℕ, ◌+◌, ◌<◌, ◌≤◌, false, [], length};
ghost use Rattle.u8oru16.specs.Value.{size_of};
ghost use Rattle.memory.specs.Writes.{stored, reported};
ghost use Rattle.stack.specs.Pushing.{registers_named, bytes_pushed, pushes};
ghost use Rattle.calls.specs.Plain.{put};

use registers::{Set, Stack};
use u8oru16::u8u16;

// A byte, or a word's two.
pub fn put(mem: &mut [u8], at: u16, value: u8u16)
    requires { (length mem.old ≡ 65536) × (at + size_of value ≤ 0x10000) }
    ensures { mem.new ≡ put at value mem.old }
{
    let p = at as usize;
    match value {
        u8u16::u8(byte) => mem[p] = byte,
        u8u16::u16(word) => {
            let [high, low] = word.to_be_bytes();
            mem[p] = high;
            mem[p + 1] = low;
        }
    }
}

// The registers of a post-byte, from PC down to CC; the pointer after them. `pointer ≤ 0xFF00` is what `is_plain` shows of a push.
pub fn push(mem: &mut [u8], regs: Set, own: Stack, pointer: u16, mask: u8) -> u16
    requires { ((length mem.old ≡ 65536) × (pointer ≤ 0xFF00)) × (bytes_pushed mask ≤ pointer) }
    ensures { (result + bytes_pushed mask ≡ pointer) × ((top : ℕ) → pointer ≤ top → (mem.new ≡ stored top (pushes regs false pointer (registers_named own mask)) mem.old) × (reported top (pushes regs false pointer (registers_named own mask)) ≡ [])) }
{
    let mut p = pointer;
    for k in (0..8).rev() {
        if stack::bit(mask, k) {
            let value = regs.get_register(stack::named(own, k));
            p -= value.size();
            put(mem, p, value);
        }
    }
    p
}
