// One value written: the memory's length is judged first.
ghost use Rattle.std.specs.Prelude.{◌≡◌};
ghost use Rattle.memory.specs.Writes.{writes_of, value_writes};
ghost use Rattle.memory.specs.Access.{byte, write_answer, wrote_of, memory_after};

use crate::{AccessType, Write, Writes, writes};
use answers::Refusal;
use u8oru16::u8u16;

// The writes of one value: a byte, or a word's two.
fn value_writes(at: u16, value: u8u16, system: bool) -> Writes
    ensures { result ≡ writes_of (value_writes at value system) }
{
    match value {
        u8u16::u8(byte) => Writes::none().add(Write { at, byte, system }),
        u8u16::u16(word) => Writes::none().add_word(at, word, system),
    }
}

// Whether a write is refused: by the memory's length alone.
fn write_answer(length: usize) -> Result<(), Refusal>
    ensures { result ≡ write_answer length }
{
    if length == 65536 {
        Ok(())
    } else {
        Err(Refusal::MemoryLength)
    }
}

// The device writes. A refused call writes nothing.
pub fn write_u8u16(
    mem: &mut [u8],
    ram_top: u16,
    atype: AccessType,
    at: u16,
    value: u8u16,
) -> Result<Writes, Refusal>
    ensures { (result ≡ wrote_of ram_top atype at value mem.old) × (mem.new ≡ memory_after ram_top atype at value mem.old) }
{
    write_answer(mem.len())?;
    let listed = value_writes(at, value, atype.is_system());
    Ok(writes::store_all(mem, ram_top, listed))
}

// A name of memory.rs over the function above.
pub fn write_u8(
    mem: &mut [u8],
    ram_top: u16,
    atype: AccessType,
    at: u16,
    value: u8,
) -> Result<Writes, Refusal>
    ensures { (result ≡ wrote_of ram_top atype at (byte value) mem.old) × (mem.new ≡ memory_after ram_top atype at (byte value) mem.old) }
{
    write_u8u16(mem, ram_top, atype, at, u8u16::u8(value))
}
