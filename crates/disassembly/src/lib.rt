// The text of one instruction (document 02, request [7]). docs/DISASSEMBLY.md has the layout of the line.
#![tactic(auto)]

mod figures;
mod line;
mod names;
mod operands;

ghost use Rattle.std.specs.Prelude.{◌≡◌, ◌+◌, ◌≤◌, ◌++◌, length, drop};
ghost use Rattle.operations.specs.Refusals.{code_refused};
ghost use Rattle.disassembly.specs.Line.{line_length, instruction_line};
ghost use Rattle.disassembly.specs.Disassembly.{immediate_at, taken_as_step, legible, disassembled_of, line_after};

use answers::Refusal;
use decode::{Instruction, Operand};
pub use line::LINE;
use line::{BYTES, OPERAND, byte_pairs, put_mnemonic};
use opcodes::Op;
use operands::{names_two, put_operand};

// No `Option`: `immediate_at` of specs/Disassembly has 0 where the operand is another, and TFR and EXG alone ask.
fn immediate_at(operand: Operand) -> u16
    ensures { result ≡ immediate_at operand }
{
    match operand {
        Operand::Immediate(at) => at,
        _ => 0,
    }
}

// Whether TFR or EXG names no two registers of one size by the byte at an address.
fn code_refused(mem: &[u8], op: Op, at: u16) -> bool
    ensures { result ≡ code_refused op mem.now at }
{
    match op {
        Op::Registers(on) => {
            names_two(on) && !operations::transferable(memory::read_u8(mem, at))
        }
        Op::Memory(_) => false,
    }
}

// What a step refuses once the instruction is decoded, save what it finds in registers.
fn judge(mem: &[u8], i: Instruction) -> Result<Instruction, Refusal>
    ensures { result ≡ taken_as_step mem.now i }
{
    if i.next > 0xFFFF {
        return Err(Refusal::PastEnd);
    }
    if code_refused(mem, i.entry.op, immediate_at(i.operand)) {
        return Err(Refusal::TransferCode);
    }
    Ok(i)
}

fn read(mem: &[u8], at: u16) -> Result<Instruction, Refusal>
    ensures { result ≡ legible mem.now at }
{
    judge(mem, decode::decode(mem, at)?)
}

// The operand is written last, to the rest of the line after the mnemonic.
fn write_line(line: &mut [u8], mem: &[u8], at: u16, i: Instruction)
    requires { (line_length ≤ length line.old) × ((at ≤ i.next) × ((i.next ≤ at + 5) × (i.next ≤ 0xFFFF))) }
    ensures { line.new ≡ instruction_line mem.now at i ++ drop line_length line.old }
{
    text::put(line, 0, &[b' '; LINE]);
    text::put(line, 0, &text::hex4(at));
    byte_pairs(mem, at, i.next as u16 - at).put(line, BYTES);
    put_mnemonic(line, i.entry);
    put_operand(&mut line[OPERAND..], mem, i);
}

// Writes the instruction at an address to the first 48 bytes of the line.
pub fn disassemble(mem: &[u8], at: u16, line: &mut [u8]) -> Result<u16, Refusal>
    ensures { (result ≡ disassembled_of mem.now at (length line.old)) × (line.new ≡ line_after mem.now at line.old) }
{
    if mem.len() != 65536 {
        return Err(Refusal::MemoryLength);
    }
    let i = read(mem, at)?;
    if line.len() < LINE {
        return Err(Refusal::LineShort);
    }
    write_line(line, mem, at, i);
    Ok(i.next as u16 - at)
}
