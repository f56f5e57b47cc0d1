// Which operations arm NMI: those that load S.
ghost use Rattle.std.specs.Prelude.{◌≡◌};
ghost use Rattle.memory.specs.Map.{byte_at};
ghost use Rattle.evaluate.specs.Arming.{is_s, registers_arm, pull_arms, memory_arms};

use opcodes::{MemoryOp, RegisterOp};
use registers::{Stack, Word};

fn is_s(word: Word) -> bool
    ensures { result ≡ is_s word }
{
    matches!(word, Word::S)
}

// In a post-byte of EXG and TFR code 4 names S.
fn exchange_arms(m: u8) -> bool
    ensures { result ≡ registers_arm RegisterOp.Exg m }
{
    (m / 16 == 4) | (m % 16 == 4)
}

fn transfer_arms(m: u8) -> bool
    ensures { result ≡ registers_arm RegisterOp.Tfr m }
{
    m % 16 == 4
}

// This and `memory_arms` are two: each asks of an enum of its own, and no arm is in both, so that a trait would join nothing.
pub fn registers_arm(op: RegisterOp, mem: &[u8], ea: u16) -> bool
    ensures { result ≡ registers_arm op (byte_at mem.now ea) }
{
    match op {
        RegisterOp::Load16(word) => is_s(word),
        RegisterOp::Lea(index) => is_s(index.word()),
        RegisterOp::Exg => exchange_arms(memory::read_u8(mem, ea)),
        RegisterOp::Tfr => transfer_arms(memory::read_u8(mem, ea)),
        _ => false,
    }
}

// In a post-byte of PULU bit 6 names S.
fn pull_arms(own: Stack, m: u8) -> bool
    ensures { result ≡ pull_arms own m }
{
    match own {
        Stack::U => (m >> 6) % 2 == 1,
        Stack::S => false,
    }
}

pub fn memory_arms(op: MemoryOp, mem: &[u8], ea: u16) -> bool
    ensures { result ≡ memory_arms op (byte_at mem.now ea) }
{
    match op {
        MemoryOp::Pull(own) => pull_arms(own, memory::read_u8(mem, ea)),
        _ => false,
    }
}
