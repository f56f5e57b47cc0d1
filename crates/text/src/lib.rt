// Text in ASCII: hexadecimal digits and what they stand for, decimal numbers, and the lines that are printed.
// Not by Display: the libraries have no heap, and the contracts say each byte that is laid in a fixed buffer.
#![tactic(auto)]

mod hex;
mod lines;

ghost use Rattle.std.specs.Prelude.{◌≡◌, ◌+◌, ◌≤◌, length};
ghost use Rattle.std.proofs.lemmas.List.Edits.{sets};

pub use hex::{byte, hex2, hex4, is_digit, value};
pub use lines::{Text, alone, decimal, line};

// Writes a part at a place that has room for it. A loop: `copy_from_slice` of a length that is not known calls memmove, and the archives for C
// are to need no such name from outside.
fn lay(out: &mut [u8], at: usize, part: &[u8])
    requires { at + length part.now ≤ length out.old }
    ensures { out.new ≡ sets out.old at part.now }
{
    for i in 0..part.len() {
        out[at + i] = part[i];
    }
}

// Writes a part at a place. What would lie past the end is left out. A part that fits is laid as it is: cut to the less of both lengths it
// would have a length that the compiler does not know, and a few bytes would go by a call.
// Buffer and place stand apart: what is promised, `sets out at part`, is said of the two.
pub fn put(out: &mut [u8], at: usize, part: &[u8])
    ensures { out.new ≡ sets out.old at part.now }
{
    if at <= out.len() {
        let room = out.len() - at;
        if part.len() <= room {
            lay(out, at, part);
        } else {
            lay(out, at, &part[..room]);
        }
    }
}
