// The text of an operand.
ghost use Rattle.std.specs.Prelude.{◌≡◌, []};
ghost use Rattle.std.proofs.lemmas.List.Edits.{sets};
ghost use Rattle.text.specs.Lines.{text_of, grown};
ghost use Rattle.operations.specs.Refusals.{names_two};
ghost use Rattle.disassembly.specs.Operands.{immediate_byte, memory_byte_text, byte_operand, immediate_text, program_text, form_text, indexed_text, operand_text};

use super::figures::{with_long_offset, with_number, with_short_offset, with_target, with_word};
use super::names::{with_index, with_list, with_name, with_transfer};
use decode::{Form, Indexed, Instruction, Operand};
use opcodes::{MemoryOp, Mode, Op, RegisterOp};
use registers::Name;
use text::Text;

// TFR and EXG alone.
pub fn names_two(op: RegisterOp) -> bool
    ensures { result ≡ names_two op }
{
    matches!(op, RegisterOp::Exg | RegisterOp::Tfr)
}

// #$12
fn immediate_byte(b: u8) -> Text
    ensures { result ≡ text_of (immediate_byte b) }
{
    with_number(Text::empty().with_byte(b'#'), b)
}

fn memory_byte(op: MemoryOp, b: u8) -> Text
    ensures { result ≡ text_of (memory_byte_text op b) }
{
    match op {
        MemoryOp::Push(stack) | MemoryOp::Pull(stack) => with_list(Text::empty(), stack, b),
        _ => immediate_byte(b),
    }
}

fn byte_operand(op: Op, b: u8) -> Text
    ensures { result ≡ text_of (byte_operand op b) }
{
    match op {
        Op::Registers(on) => {
            if names_two(on) {
                with_transfer(Text::empty(), b)
            } else {
                immediate_byte(b)
            }
        }
        Op::Memory(on) => memory_byte(on, b),
    }
}

fn immediate(mem: &[u8], mode: Mode, op: Op, at: u16) -> Text
    ensures { result ≡ text_of (immediate_text mode op mem.now at) }
{
    match mode {
        Mode::Immediate8 => byte_operand(op, memory::read_u8(mem, at)),
        Mode::Immediate16 => with_word(Text::empty().with_byte(b'#'), memory::read_u16(mem, at)),
        _ => Text::empty(),
    }
}

// $1234,PCR
fn with_program(text: Text, next: u32, n: u16) -> Text
    ensures { result ≡ grown text (program_text next n) }
{
    let target = with_target(text, next, n).with_byte(b',');
    target.with_byte(b'P').with_byte(b'C').with_byte(b'R')
}

// A form, before indirection: the offset n, the index register, the next instruction's address.
fn with_form(text: Text, form: Form, n: u16, index: Name, next: u32) -> Text
    ensures { result ≡ grown text (form_text form n index next) }
{
    match form {
        Form::Offset5 | Form::Offset8 => with_index(with_short_offset(text, n), index),
        Form::Increment1 => with_index(text, index).with_byte(b'+'),
        Form::Increment2 => { with_index(text, index).with_byte(b'+').with_byte(b'+') }
        Form::Decrement1 => with_name(text.with_byte(b',').with_byte(b'-'), index),
        Form::Decrement2 => {
            with_name(text.with_byte(b',').with_byte(b'-').with_byte(b'-'), index)
        }
        Form::NoOffset => with_index(text, index),
        Form::OffsetB => with_index(text.with_byte(b'B'), index),
        Form::OffsetA => with_index(text.with_byte(b'A'), index),
        Form::Offset16 => with_index(with_long_offset(text, n), index),
        Form::OffsetD => with_index(text.with_byte(b'D'), index),
        Form::Program8 | Form::Program16 => with_program(text, next, n),
        Form::Address => with_word(text, n),
    }
}

// Brackets around an indirect form.
fn indexed(ix: Indexed, next: u32) -> Text
    ensures { result ≡ text_of (indexed_text ix next) }
{
    let index = decode::index_of(ix.post).word().name();
    if decode::is_indirect(ix.post) {
        let open = Text::empty().with_byte(b'[');
        with_form(open, ix.form, ix.offset, index, next).with_byte(b']')
    } else {
        with_form(Text::empty(), ix.form, ix.offset, index, next)
    }
}

fn operand_text(mem: &[u8], i: Instruction) -> Text
    ensures { result ≡ text_of (operand_text i mem.now) }
{
    match i.operand {
        Operand::Inherent => Text::empty(),
        Operand::Immediate(at) => immediate(mem, i.entry.mode, i.entry.op, at),
        Operand::Direct(low) => with_number(Text::empty().with_byte(b'<'), low),
        Operand::Indexed(ix) => indexed(ix, i.next),
        Operand::Extended(at) => with_word(Text::empty(), at),
        Operand::Relative(offset) => with_target(Text::empty(), i.next, offset),
    }
}

// The operand at the front of the part of the line that follows the mnemonic.
pub fn put_operand(rest: &mut [u8], mem: &[u8], i: Instruction)
    ensures { rest.new ≡ sets rest.old 0 (operand_text i mem.now) }
{
    operand_text(mem, i).put(rest, 0);
}
