// Registers in an operand, written at the end of a text.
ghost use Rattle.std.specs.Prelude.{◌≡◌, ◌<◌, ◌∷◌};
ghost use Rattle.text.specs.Lines.{grown};
ghost use Rattle.disassembly.specs.Names.{name_text, comma, transfer_text, slot_text, list_text};

use registers::{Name, Stack};
use text::Text;

pub fn with_name(mut text: Text, name: Name) -> Text
    ensures { result ≡ grown text (name_text name) }
{
    for letter in name.to_str().as_bytes() {
        text = text.with_byte(*letter);
    }
    text
}

// ,R
pub fn with_index(text: Text, index: Name) -> Text
    ensures { result ≡ grown text (comma ∷ name_text index) }
{
    with_name(text.with_byte(b','), index)
}

// Source and destination of TFR and EXG.
pub fn with_transfer(text: Text, post: u8) -> Text
    ensures { result ≡ grown text (transfer_text post) }
{
    let source = with_name(text, operations::transfer_name(post / 16));
    with_index(source, operations::transfer_name(post % 16))
}

// A register whose bit is set, a comma before it if it is not the first.
fn with_slot(text: Text, post: u8, weight: u8, name: Name) -> Text
    requires { 0 < weight }
    ensures { result ≡ grown text (slot_text post weight name) }
{
    if post / weight % 2 == 0 {
        text
    } else if post % weight == 0 {
        with_name(text, name)
    } else {
        with_index(text, name)
    }
}

// The registers that a post-byte of PSH or PUL names, from the lowest bit on.
pub fn with_list(text: Text, stack: Stack, post: u8) -> Text
    ensures { result ≡ grown text (list_text stack post) }
{
    let other = stack.other().word().name();
    let text = with_slot(text, post, 0x01, Name::CC);
    let text = with_slot(text, post, 0x02, Name::A);
    let text = with_slot(text, post, 0x04, Name::B);
    let text = with_slot(text, post, 0x08, Name::DP);
    let text = with_slot(text, post, 0x10, Name::X);
    let text = with_slot(text, post, 0x20, Name::Y);
    let text = with_slot(text, post, 0x40, other);
    with_slot(text, post, 0x80, Name::PC)
}
