// Addressing, 43.
use super::case::{Case, Reply, Words, digested};
use super::digest::machine_digest;
use super::machine_memory::{Memory, put, put_back};
use super::operands::{Instruction, mixed};
use addressing::Addressed;
use answers::Refusal;
use decode::Operand;
use opcodes::Mode;
use registers::Set;

// The operand's bytes stand after the opcode for as long as the case takes. Its three are laid out in every mode: those that a mode
// does not read must not matter.
pub fn answer(case: Case, mem: &mut Memory) -> Reply {
    let [w1, pc, rest, seed] = case.words;
    let instruction = Instruction::try_from(w1)?;
    let [second, third] = rest.to_be_bytes();
    let at = pc as u32 + 1 + instruction.is_long as u32;
    put(mem, at, instruction.first);
    put(mem, at + 1, second);
    put(mem, at + 2, third);
    let located = located(mem, instruction.mode, mixed(seed, rest, pc), at);
    put_back(mem, at);
    put_back(mem, at + 1);
    put_back(mem, at + 2);
    Ok(located?)
}

// Before the bytes are put back. The next address may be 10000, which counts as 0000: an instruction is far shorter than that.
fn located(mem: &Memory, mode: Mode, regs: Set, at: u32) -> Result<Words, Refusal> {
    let (operand, next) = decode::operand_at(mem, mode, at)?;
    let found = resolved(mem, regs, operand, next)?;
    let size = ((next % 0x10000) as u16).wrapping_sub(regs.pc);
    Ok(digested(found.ea, machine_digest(size, found.regs, mem)))
}

// The Rust tests the next address here for a relative offset alone.
fn resolved(mem: &Memory, regs: Set, operand: Operand, next: u32) -> Result<Addressed, Refusal> {
    match operand {
        Operand::Relative(_) => addressing::resolve(mem, regs, operand, next),
        _ => Ok(addressing::effective(mem, regs, operand, next)),
    }
}
