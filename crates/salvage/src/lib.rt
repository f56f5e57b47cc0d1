// What is sound of a torn S-record file (document 02, request [14]): the lines that the reader accepts, up to and with the first good S9.
#![tactic(auto)]

mod mended;
mod printed;

ghost use Rattle.std.specs.Prelude.{◌≡◌, ◌<◌, ◌≤◌, length};
ghost use Rattle.salvage.specs.Lines.{turn_of, passing};

use answers::Refusal;
pub use mended::{Salvaged, salvage};
pub use printed::{Printed, mend};
use srecord::Line;

// Before a line: where it starts, how many lines stand before it, and whether the first good S9 is among them.
#[derive(Clone, Copy, Default)]
struct Cursor {
    pub from: usize,
    pub lines: usize,
    pub ended: bool,
}

impl Cursor {
    // Past a line that ends here.
    fn pass(self, end: usize, fate: Option<Refusal>, ended: bool) -> Turn
        requires { self.lines < end }
        ensures { result ≡ passing self end fate ended }
    {
        Turn {
            fate,
            next: Cursor {
                from: end,
                lines: self.lines + 1,
                ended,
            },
        }
    }
}

// The refusal by which a line is dropped, none if it is kept; and the cursor after it.
#[derive(Clone, Copy)]
struct Turn {
    pub fate: Option<Refusal>,
    pub next: Cursor,
}

// After S9 no line is read.
fn next(file: &[u8], at: Cursor) -> Turn
    requires { (at.from < length file.now) × (at.lines ≤ at.from) }
    ensures { result ≡ turn_of file.now at }
{
    let end = srecord::line_end(file, at.from);
    if at.ended {
        return at.pass(end, Some(Refusal::LineShape), true);
    }
    match srecord::line_of(&file[at.from..end]) {
        Ok(Line::End(_)) => at.pass(end, None, true),
        Ok(_) => at.pass(end, None, false),
        // The refusal becomes the line's fate, and the walk goes on.
        Err(refusal) => at.pass(end, Some(refusal), false),
    }
}
