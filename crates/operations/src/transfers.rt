// TFR and EXG: the post-byte names two registers of one size.
ghost use Rattle.std.specs.Prelude.{◌≡◌};
ghost use Rattle.operations.specs.Transfers.{transferable, transfer_name, transfer, exchange};

use answers::Refusal;
use registers::{Name, Set};

// Codes 0 to 5 name words and 8 to B bytes; both have to be of one size.
pub fn transferable(m: u8) -> bool
    ensures { result ≡ transferable m }
{
    let from = m / 16;
    let to = m % 16;
    ((from < 6) & (to < 6)) | ((7 < from) & (from < 12) & (7 < to) & (to < 12))
}

// No `Option`: `transfer_name` of specs/Transfers answers a code without a register by DP, and `transferable` is asked first.
pub fn transfer_name(code: u8) -> Name
    ensures { result ≡ transfer_name code }
{
    match code {
        0 => Name::D,
        1 => Name::X,
        2 => Name::Y,
        3 => Name::U,
        4 => Name::S,
        5 => Name::PC,
        8 => Name::A,
        9 => Name::B,
        10 => Name::CC,
        _ => Name::DP,
    }
}

pub fn transfer(regs: Set, m: u8) -> Result<Set, Refusal>
    ensures { result ≡ transfer regs m }
{
    if transferable(m) {
        let value = regs.get_register(transfer_name(m / 16));
        Ok(regs.set_register(transfer_name(m % 16), value))
    } else {
        Err(Refusal::TransferCode)
    }
}

// Beside `transfer`: what they share is `transferable` and `transfer_name`. EXG reads both registers before it sets one.
pub fn exchange(regs: Set, m: u8) -> Result<Set, Refusal>
    ensures { result ≡ exchange regs m }
{
    if transferable(m) {
        let first = transfer_name(m / 16);
        let second = transfer_name(m % 16);
        let one = regs.get_register(first);
        let two = regs.get_register(second);
        Ok(regs.set_register(first, two).set_register(second, one))
    } else {
        Err(Refusal::TransferCode)
    }
}
