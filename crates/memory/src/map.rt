// The map: where a byte lies, what a read gives, what becomes of a write.
ghost use Rattle.std.specs.Prelude.{◌≡◌};
ghost use Rattle.memory.specs.Map.{is_system, place_of, byte_at, word_at, value_at, landing_of};

use crate::{AccessType, Landing};
use u8oru16::u8u16;

impl AccessType {
    // Whether writes above ram_top are stored.
    pub fn is_system(self) -> bool
        ensures { result ≡ is_system self }
    {
        self == AccessType::System
    }
}

// The place in memory of the byte at an address.
pub fn place(at: u16) -> u16
    ensures { result ≡ place_of at }
{
    match at {
        0xFFE0..=0xFFFF => at - 0x4000,
        _ => at,
    }
}

// A place past a short memory reads as 0.
// No `Option`: `byte_at` of specs/Map gives each address a byte.
pub fn read_u8(mem: &[u8], at: u16) -> u8
    ensures { result ≡ byte_at mem.now at }
{
    mem.get(place(at) as usize).copied().unwrap_or(0)
}

// High byte first. The low byte of a word at FFFF is at 0000, where the Rust panics.
// The names are of memory.rs; a word is two reads of a byte, since its bytes may lie apart.
pub fn read_u16(mem: &[u8], at: u16) -> u16
    ensures { result ≡ word_at mem.now at }
{
    u16::from_be_bytes([read_u8(mem, at), read_u8(mem, at.wrapping_add(1))])
}

pub fn read_u8u16(mem: &[u8], at: u16, wide: bool) -> u8u16
    ensures { result ≡ value_at mem.now at wide }
{
    if wide {
        u8u16::u16(read_u16(mem, at))
    } else {
        u8u16::u8(read_u8(mem, at))
    }
}

// ram_top is judged at the address, before mapping.
pub fn lands(at: u16, ram_top: u16, system: bool) -> Landing
    ensures { result ≡ landing_of at ram_top system }
{
    match at {
        0xFF00..=0xFF3F | 0xFFC0..=0xFFDF => Landing::Device,
        0xFF40..=0xFFBF => Landing::Ignored,
        _ => {
            if (ram_top < at) & !system {
                Landing::Ignored
            } else {
                Landing::Stored(place(at))
            }
        }
    }
}
