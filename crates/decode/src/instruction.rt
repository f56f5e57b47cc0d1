// An instruction: its entry of the opcode map, its operand, and the address after it.
ghost use Rattle.std.specs.Prelude.{◌≡◌, Some};
ghost use Rattle.opcodes.specs.Manual.{entry_of};
ghost use Rattle.decode.specs.Decode.{second_byte, located, decoded_as, decoded_at};

use super::operand;
use super::operand::Operand;
use answers::Refusal;
use opcodes::{Entry, Page};

// `next` may be 10000.
#[derive(Clone, Copy)]
pub struct Instruction {
    pub entry: Entry,
    pub operand: Operand,
    pub next: u32,
}

// The byte after a prefix.
fn second_byte(mem: &[u8], page: Page, pc: u16) -> Result<(Page, u8, u32), Refusal>
    ensures { result ≡ second_byte page mem.now pc }
{
    let at = pc.checked_add(1).ok_or(Refusal::PastEnd)?;
    Ok((page, memory::read_u8(mem, at), at as u32 + 1))
}

// 10 and 11 are prefixes.
fn locate(mem: &[u8], pc: u16) -> Result<(Page, u8, u32), Refusal>
    ensures { result ≡ located mem.now pc }
{
    let code = memory::read_u8(mem, pc);
    match code {
        0x10 => second_byte(mem, Page::Ten, pc),
        0x11 => second_byte(mem, Page::Eleven, pc),
        _ => Ok((Page::Plain, code, pc as u32 + 1)),
    }
}

// The entry's operand, from `at` on, the address after the opcode.
pub fn with_operand(mem: &[u8], entry: Entry, at: u32) -> Result<Instruction, Refusal>
    ensures { result ≡ decoded_as (Some entry) mem.now at }
{
    let (operand, next) = operand::operand_at(mem, entry.mode, at)?;
    Ok(Instruction {
        entry,
        operand,
        next,
    })
}

// An opcode that is not in the manual is refused. The map is looked up here alone, so that it is compiled in once.
fn look_up(mem: &[u8], page: Page, code: u8, at: u32) -> Result<Instruction, Refusal>
    ensures { result ≡ decoded_as (entry_of page code) mem.now at }
{
    let entry = pages::lookup(page, code).ok_or(Refusal::Opcode)?;
    with_operand(mem, entry, at)
}

// The instruction at PC.
pub fn decode(mem: &[u8], pc: u16) -> Result<Instruction, Refusal>
    ensures { result ≡ decoded_at mem.now pc }
{
    let (page, code, at) = locate(mem, pc)?;
    look_up(mem, page, code, at)
}
