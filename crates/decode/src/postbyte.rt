// The post-byte of indexed addressing: its form, its index register, whether it is indirect, and its five-bit offset.
ghost use Rattle.std.specs.Prelude.{◌≡◌};
ghost use Rattle.decode.specs.PostByte.{unless_indirect, only_as_9f, form_of, is_indirect, index_of, five_bits};

use answers::Refusal;
use registers::Index;

// The manual's table of indexed addressing modes.
#[derive(Clone, Copy)]
pub enum Form {
    Offset5,
    Increment1,
    Increment2,
    Decrement1,
    Decrement2,
    NoOffset,
    OffsetB,
    OffsetA,
    Offset8,
    Offset16,
    OffsetD,
    Program8,
    Program16,
    Address,
}

// Bits 7 and 4 are both set.
pub fn is_indirect(post: u8) -> bool
    ensures { result ≡ is_indirect post }
{
    post & 0x90 == 0x90
}

// Indirect ,R+ and ,-R are refused.
fn unless_indirect(post: u8, form: Form) -> Result<Form, Refusal>
    ensures { result ≡ unless_indirect post form }
{
    if is_indirect(post) {
        Err(Refusal::PostByte)
    } else {
        Ok(form)
    }
}

// Of low form 8F the manual has 9F alone.
fn only_as_9f(post: u8) -> Result<Form, Refusal>
    ensures { result ≡ only_as_9f post }
{
    if post == 0x9F {
        Ok(Form::Address)
    } else {
        Err(Refusal::PostByte8F)
    }
}

// The low form decides: the post-byte masked with 8F.
pub fn form_of(post: u8) -> Result<Form, Refusal>
    ensures { result ≡ form_of post }
{
    match post & 0x8F {
        0x00..=0x0F => Ok(Form::Offset5),
        0x80 => unless_indirect(post, Form::Increment1),
        0x81 => Ok(Form::Increment2),
        0x82 => unless_indirect(post, Form::Decrement1),
        0x83 => Ok(Form::Decrement2),
        0x84 => Ok(Form::NoOffset),
        0x85 => Ok(Form::OffsetB),
        0x86 => Ok(Form::OffsetA),
        0x88 => Ok(Form::Offset8),
        0x89 => Ok(Form::Offset16),
        0x8B => Ok(Form::OffsetD),
        0x8C => Ok(Form::Program8),
        0x8D => Ok(Form::Program16),
        0x8F => only_as_9f(post),
        _ => Err(Refusal::PostByte),
    }
}

// Bits 5 and 6 name the index register.
pub fn index_of(post: u8) -> Index
    ensures { result ≡ index_of post }
{
    match (post & 0x60) >> 5 {
        0 => Index::X,
        1 => Index::Y,
        2 => Index::U,
        _ => Index::S,
    }
}

// The low five bits with their sign, as a word.
pub fn five_bits(post: u8) -> u16
    ensures { result ≡ five_bits post }
{
    let five = (post & 0x1F) as u16;
    if post & 0x10 != 0 {
        five | 0xFFE0
    } else {
        five
    }
}
