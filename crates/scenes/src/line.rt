// The lines of standard input: the two shapes that they have.
// A scene's line. An example's is shorter, and stands at its front.
pub const LINE: usize = 134;

pub const EXAMPLE: usize = 74;

pub type Line = [u8; LINE];

fn is_call(b: u8) -> bool {
    matches!(b, b'S' | b'I' | b'F' | b'N' | b'R' | b'-')
}

fn is_journal_operation(b: u8) -> bool {
    match b {
        b'U' | b'0'..=b'9' | b'a' | b'x' => true,
        b'w' | b'm' | b'c' | b'd' | b'l' | b'h' | b'o' | b'p' => true,
        _ => is_call(b),
    }
}

// x stands for a hexadecimal digit, f for a flag setting, o for a call, j for a call or an operation of the journal, any other byte for itself.
fn fits(kind: u8, b: u8) -> bool {
    match kind {
        b'x' => text::is_digit(b),
        b'f' => b == b'B' || b == b'M',
        b'o' => is_call(b),
        b'j' => is_journal_operation(b),
        _ => b == kind,
    }
}

fn has_shape(line: &Line, shape: &[u8]) -> bool {
    line.iter().zip(shape).all(|(b, kind)| fits(*kind, *b))
}

pub fn is_example(line: &Line) -> bool {
    has_shape(
        line,
        b"xxx f xx xx xx xx xxxx xxxx xxxx xxxx xxxxxxxxxxxx xxxx xxxxxxxx ooo xxxx\n",
    )
}

pub fn is_scene(line: &Line) -> bool {
    has_shape(
        line,
        b"xxx xx xx xx xx xxxx xxxx xxxx xxxx xxxx xxxx xxxxxxxxxxxx xxxx xxxxxxxx xxxxx xxxx xxxxxxxxxxxxxxxx xxxxxxxxxxxxxxxx jjjjjjjj xxxx j\n",
    )
}
