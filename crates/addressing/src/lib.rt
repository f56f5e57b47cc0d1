// The effective address of a decoded operand (process_addressing_mode of runtime.rs, without its decoding).
#![tactic(auto)]

ghost use Rattle.std.specs.Prelude.{◌≡◌};
ghost use Rattle.addressing.specs.Address.{at_address, offset_from, incremented, decremented, program_relative, indexed_before, through_pointer, indexed_address, effective_of, advanced, resolved_of};

use answers::Refusal;
use decode::{Form, Indexed, Operand};
use registers::{Set, Word};

// The registers with the index register changed, and the effective address.
#[derive(Clone, Copy)]
pub struct Addressed {
    pub regs: Set,
    pub ea: u16,
}

// The address that is n above the index register.
fn offset_by(regs: Set, index: Word, n: u16) -> Addressed
    ensures { result ≡ offset_from regs index n }
{
    Addressed {
        regs,
        ea: regs.word(index).wrapping_add(n),
    }
}

// The register is the address, and is then n higher.
fn increment(regs: Set, index: Word, n: u16) -> Addressed
    ensures { result ≡ incremented regs index n }
{
    let ea = regs.word(index);
    Addressed {
        regs: regs.with_word(index, ea.wrapping_add(n)),
        ea,
    }
}

// The register is n lower, and is then the address.
// Beside `increment`: the one reads the register before it moves it, the other after.
fn decrement(regs: Set, index: Word, n: u16) -> Addressed
    ensures { result ≡ decremented regs index n }
{
    let ea = regs.word(index).wrapping_sub(n);
    Addressed {
        regs: regs.with_word(index, ea),
        ea,
    }
}

// An address counted from the next instruction's, which is 0000 after FFFF.
fn program_relative(regs: Set, next: u32, offset: u16) -> Addressed
    ensures { result ≡ program_relative regs next offset }
{
    Addressed {
        regs,
        ea: ((next % 0x10000) as u16).wrapping_add(offset),
    }
}

fn at_address(regs: Set, ea: u16) -> Addressed
    ensures { result ≡ at_address regs ea }
{
    Addressed { regs, ea }
}

// The address that a form names, before indirection, and the index register changed.
fn form_address(regs: Set, ix: Indexed, next: u32) -> Addressed
    ensures { result ≡ indexed_before regs ix next }
{
    let form = ix.form;
    let offset = ix.offset;
    let index = decode::index_of(ix.post).word();
    match form {
        Form::Offset5 => offset_by(regs, index, offset),
        Form::Increment1 => increment(regs, index, 1),
        Form::Increment2 => increment(regs, index, 2),
        Form::Decrement1 => decrement(regs, index, 1),
        Form::Decrement2 => decrement(regs, index, 2),
        Form::NoOffset => at_address(regs, regs.word(index)),
        Form::OffsetB => offset_by(regs, index, decode::signed_byte(regs.b)),
        Form::OffsetA => offset_by(regs, index, decode::signed_byte(regs.a)),
        Form::Offset8 => offset_by(regs, index, offset),
        Form::Offset16 => offset_by(regs, index, offset),
        Form::OffsetD => offset_by(regs, index, regs.word(Word::D)),
        Form::Program8 => program_relative(regs, next, offset),
        Form::Program16 => program_relative(regs, next, offset),
        Form::Address => at_address(regs, offset),
    }
}

// Follows the pointer: the word at the address becomes the effective address.
fn through_pointer(mem: &[u8], found: Addressed) -> Addressed
    ensures { result ≡ through_pointer mem.now found }
{
    at_address(found.regs, memory::read_u16(mem, found.ea))
}

fn indexed_address(mem: &[u8], regs: Set, ix: Indexed, next: u32) -> Addressed
    ensures { result ≡ indexed_address mem.now regs ix next }
{
    let found = form_address(regs, ix, next);
    if decode::is_indirect(ix.post) {
        through_pointer(mem, found)
    } else {
        found
    }
}

// The effective address, whatever the next address is.
pub fn effective(mem: &[u8], regs: Set, operand: Operand, next: u32) -> Addressed
    ensures { result ≡ effective_of operand mem.now regs next }
{
    match operand {
        Operand::Inherent => at_address(regs, 0),
        Operand::Immediate(at) => at_address(regs, at),
        Operand::Direct(low) => at_address(regs, u16::from_be_bytes([regs.dp, low])),
        Operand::Indexed(ix) => indexed_address(mem, regs, ix, next),
        Operand::Extended(at) => at_address(regs, at),
        Operand::Relative(offset) => program_relative(regs, next, offset),
    }
}

// The next address becomes PC.
fn advance(found: Addressed, next: u32) -> Result<Addressed, Refusal>
    ensures { result ≡ advanced found next }
{
    let next = u16::try_from(next).map_err(|_| Refusal::PastEnd)?;
    Ok(Addressed {
        regs: found.regs.with_pc(next),
        ..found
    })
}

// The effective address, with PC at the next instruction.
pub fn resolve(mem: &[u8], regs: Set, operand: Operand, next: u32) -> Result<Addressed, Refusal>
    ensures { result ≡ resolved_of mem.now regs operand next }
{
    advance(effective(mem, regs, operand, next), next)
}
