// The stacks (manual: PSHS, PULS, PSHU, PULU, RTS, RTI, BSR, JSR), and the frame that an interrupt stacks.
#![tactic(auto)]

mod frames;
mod pulling;
mod pushing;

ghost use Rattle.std.specs.Prelude.{◌≡◌, ◌-◌, slice_index_or};
ghost use Rattle.registers.specs.ConditionCodes.{bit_at};
ghost use Rattle.registers.specs.declared.Name.TheVariants.{CC};
ghost use Rattle.stack.specs.Pushing.{order};

pub use frames::frame;
pub use pulling::{pull, pull_registers, return_from_interrupt, return_from_subroutine};
pub use pushing::{bytes_of, jump_to_subroutine, push};
use registers::{Name, Stack};

// A bit of a post-byte; a byte has none from bit 8 on.
pub fn bit(byte: u8, k: u8) -> bool
    ensures { result ≡ bit_at k byte }
{
    k < 8 && (byte >> k) % 2 == 1
}

// The register that bit k of a post-byte names: below bit 4 one of a byte, from there on one of a word. From bit 7 on it is PC, the first
// that is pushed.
pub fn named(stack: Stack, k: u8) -> Name
    ensures { result ≡ (slice_index_or (order stack) (7 - k) (0, CC)).1 }
{
    match k {
        0 => Name::CC,
        1 => Name::A,
        2 => Name::B,
        3 => Name::DP,
        4 => Name::X,
        5 => Name::Y,
        6 => stack.other().word().name(),
        _ => Name::PC,
    }
}
