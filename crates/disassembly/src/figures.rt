// Numbers in an operand, written at the end of a text.
// Digits are put to a `Text`: a `format!` would make a `String`, and the libraries have no heap.
// Those of a byte and of a word differ in two figures or four, and one for both would say no less.
ghost use Rattle.std.specs.Prelude.{◌≡◌};
ghost use Rattle.text.specs.Lines.{grown};
ghost use Rattle.disassembly.specs.Figures.{byte_text, word_text, short_offset, long_offset, target};

use text::Text;

// $12
pub fn with_number(text: Text, b: u8) -> Text
    ensures { result ≡ grown text (byte_text b) }
{
    text.with_byte(b'$').with_hex(b)
}

// $1234
pub fn with_word(text: Text, w: u16) -> Text
    ensures { result ≡ grown text (word_text w) }
{
    let [high, low] = w.to_be_bytes();
    text.with_byte(b'$').with_hex(high).with_hex(low)
}

// An offset of five or eight bits, as the word that it is: -$10.
// `% 256` and no `to_be_bytes()[1]`: the high byte tells the sign alone, and the short way is as plain.
pub fn with_short_offset(text: Text, n: u16) -> Text
    ensures { result ≡ grown text (short_offset n) }
{
    if n < 0x8000 {
        with_number(text, (n % 256) as u8)
    } else {
        with_number(text.with_byte(b'-'), (n.wrapping_neg() % 256) as u8)
    }
}

// An offset of sixteen bits: -$0010.
pub fn with_long_offset(text: Text, n: u16) -> Text
    ensures { result ≡ grown text (long_offset n) }
{
    if n < 0x8000 {
        with_word(text, n)
    } else {
        with_word(text.with_byte(b'-'), n.wrapping_neg())
    }
}

// The address that is n after the next instruction's.
pub fn with_target(text: Text, next: u32, n: u16) -> Text
    ensures { result ≡ grown text (word_text (target next n)) }
{
    let from = (next % 0x10000) as u16;
    with_word(text, from.wrapping_add(n))
}
