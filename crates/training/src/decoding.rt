// The bytes at PC to an instruction or a refusal, by the opcode's fields.
ghost use Rattle.std.specs.Prelude.{◌≡◌};
ghost use Rattle.opcodes.specs.Manual.{entry_of};
ghost use Rattle.decode.specs.Decode.{second_byte, decoded_as, from_located, decoded_at};

use answers::Refusal;
use decode::{Instruction, with_operand};
use opcodes::Page;

// The opcode's byte on its page, and the address after it.
fn on_page(mem: &[u8], page: Page, code: u8, at: u32) -> Result<Instruction, Refusal>
    ensures { result ≡ decoded_as (entry_of page code) mem.now at }
{
    let entry = fields::place(page, code).ok_or(Refusal::Opcode)?;
    with_operand(mem, entry, at)
}

// After a prefix the next byte is the opcode.
fn after_prefix(mem: &[u8], page: Page, pc: u16) -> Result<Instruction, Refusal>
    ensures { result ≡ from_located (second_byte page mem.now pc) mem.now }
{
    let at = pc.checked_add(1).ok_or(Refusal::PastEnd)?;
    on_page(mem, page, memory::read_u8(mem, at), at as u32 + 1)
}

// The instruction at PC. 10 and 11 are prefixes.
pub fn decode(mem: &[u8], pc: u16) -> Result<Instruction, Refusal>
    ensures { result ≡ decoded_at mem.now pc }
{
    let code = memory::read_u8(mem, pc);
    match code {
        0x10 => after_prefix(mem, Page::Ten, pc),
        0x11 => after_prefix(mem, Page::Eleven, pc),
        _ => on_page(mem, Page::Plain, code, pc as u32 + 1),
    }
}
