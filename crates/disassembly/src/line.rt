// The parts of a line of 48 columns.
ghost use Rattle.std.specs.Prelude.{◌≡◌};
ghost use Rattle.std.proofs.lemmas.List.Edits.{sets};
ghost use Rattle.text.specs.Lines.{text_of};
ghost use Rattle.disassembly.specs.Line.{byte_pairs, mnemonic_text};

use opcodes::Entry;
use text::Text;

pub const LINE: usize = 48;

// Where the bytes, the mnemonic and the operand begin.
pub const BYTES: usize = 6;

const MNEMONIC: usize = 22;

pub const OPERAND: usize = 28;

// The bytes of an instruction, each a pair of digits and a space.
pub fn byte_pairs(mem: &[u8], at: u16, count: u16) -> Text
    ensures { result ≡ text_of (byte_pairs count mem.now at) }
{
    let mut pairs = Text::empty();
    for k in 0..count {
        let b = memory::read_u8(mem, at.wrapping_add(k));
        pairs = pairs.with_hex(b).with_byte(b' ');
    }
    pairs
}

// Of the branches those of more than two bytes are the long ones.
pub fn put_mnemonic(line: &mut [u8], entry: Entry)
    ensures { line.new ≡ sets line.old 22 (mnemonic_text entry) }
{
    let name = mnemonics::mnemonic(entry.op, entry.size > 2);
    text::put(line, MNEMONIC, name.as_bytes());
}
