// An instruction's operand bytes: what they say, or a refusal.
ghost use Rattle.std.specs.Prelude.{◌≡◌, ◌+◌, ◌*◌, ◌%◌, ◌≤◌, if◌then◌else◌, nat_le, Err, Ok};
ghost use Rattle.memory.specs.Map.{byte_at};
ghost use Rattle.answers.specs.declared.Refusal.TheVariants.{PastEnd};
ghost use Rattle.opcodes.specs.declared.Mode.TheVariants.{Indexed as ByPostByte};
ghost use Rattle.decode.specs.Operand.{signed_byte, indexed_by, with_form, operand_at};

use super::postbyte;
use super::postbyte::Form;
use answers::Refusal;
use opcodes::Mode;
use u8oru16::u8u16;

#[derive(Clone, Copy)]
pub struct Indexed {
    pub offset: u16,
    pub post: u8,
    pub form: Form,
}

// An immediate operand's own address, the low byte of a direct address, an offset with its sign.
#[derive(Clone, Copy)]
pub enum Operand {
    Inherent,
    Immediate(u16),
    Direct(u8),
    Indexed(Indexed),
    Extended(u16),
    Relative(u16),
}

// A byte with its sign, as a word.
pub fn signed_byte(byte: u8) -> u16
    ensures { result ≡ signed_byte byte }
{
    u8u16::u8(byte).sign_extended().u16()
}

fn byte_at(mem: &[u8], at: u32) -> u8
    ensures { result ≡ byte_at mem.now (at % 0x10000) }
{
    memory::read_u8(mem, (at % 0x10000) as u16)
}

// Made of `byte_at`: the two bytes of a word may lie apart.
fn word_at(mem: &[u8], at: u32) -> u16
    ensures { result ≡ 256 * byte_at mem.now (at % 0x10000) + byte_at mem.now ((at + 1) % 0x10000) }
{
    u16::from_be_bytes([byte_at(mem, at), byte_at(mem, at.wrapping_add(1))])
}

// The operand, unless one of its n bytes lies past FFFF. They are read before this test: a read at any address has an answer.
fn reaching(at: u32, n: u32, operand: Operand) -> Result<(Operand, u32), Refusal>
    requires { n ≤ 2 }
    ensures { result ≡ (if nat_le (at + n) 0x10000 then Ok (operand, at + n) else Err PastEnd) }
{
    if at <= 0x10000 - n {
        Ok((operand, at + n))
    } else {
        Err(Refusal::PastEnd)
    }
}

fn indexed_by(form: Form, post: u8, offset: u16) -> Operand
    ensures { result ≡ indexed_by form post offset }
{
    Operand::Indexed(Indexed { offset, post, form })
}

// The offset bytes of a form, from `at` on. Each form that has some has an arm of its own: the compiler then still knows the form where
// its address is found.
fn with_form(mem: &[u8], form: Form, post: u8, at: u32) -> Result<(Operand, u32), Refusal>
    ensures { result ≡ with_form form mem.now post at }
{
    match form {
        Form::Offset5 => Ok((indexed_by(form, post, postbyte::five_bits(post)), at)),
        Form::Offset8 => reaching(at, 1, indexed_by(form, post, signed_byte(byte_at(mem, at)))),
        Form::Program8 => reaching(at, 1, indexed_by(form, post, signed_byte(byte_at(mem, at)))),
        Form::Offset16 => reaching(at, 2, indexed_by(form, post, word_at(mem, at))),
        Form::Program16 => reaching(at, 2, indexed_by(form, post, word_at(mem, at))),
        Form::Address => reaching(at, 2, indexed_by(form, post, word_at(mem, at))),
        Form::Increment1
        | Form::Increment2
        | Form::Decrement1
        | Form::Decrement2
        | Form::NoOffset
        | Form::OffsetB
        | Form::OffsetA
        | Form::OffsetD => Ok((indexed_by(form, post, 0), at)),
    }
}

// The post-byte, and what follows it.
fn indexed_at(mem: &[u8], at: u32) -> Result<(Operand, u32), Refusal>
    ensures { result ≡ operand_at ByPostByte mem.now at }
{
    if at > 0xFFFF {
        return Err(Refusal::PastEnd);
    }
    let post = byte_at(mem, at);
    with_form(mem, postbyte::form_of(post)?, post, at + 1)
}

// The operand of a mode, from `at` on, the address after the opcode.
pub fn operand_at(mem: &[u8], mode: Mode, at: u32) -> Result<(Operand, u32), Refusal>
    ensures { result ≡ operand_at mode mem.now at }
{
    match mode {
        Mode::Inherent => Ok((Operand::Inherent, at)),
        Mode::Immediate8 => reaching(at, 1, Operand::Immediate((at % 0x10000) as u16)),
        Mode::Immediate16 => reaching(at, 2, Operand::Immediate((at % 0x10000) as u16)),
        Mode::Direct => reaching(at, 1, Operand::Direct(byte_at(mem, at))),
        Mode::Indexed => indexed_at(mem, at),
        Mode::Extended => reaching(at, 2, Operand::Extended(word_at(mem, at))),
        Mode::Relative8 => reaching(at, 1, Operand::Relative(signed_byte(byte_at(mem, at)))),
        Mode::Relative16 => reaching(at, 2, Operand::Relative(word_at(mem, at))),
    }
}
