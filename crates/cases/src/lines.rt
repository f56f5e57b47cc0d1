// The lines: reading a case, writing an answer.
ghost use Rattle.std.specs.Prelude.{◌+◌, ◌≤◌, length};

use super::case::{Case, Failure, Reply};

// A case's line, the lines that are read at once, and the room that their answers take.
pub const LINE: usize = 23;

pub const BLOCK: usize = 1024 * LINE;

pub const ROOM: usize = 1024 * 20;

fn byte(high: u8, low: u8) -> Result<u8, Failure> {
    if text::is_digit(high) & text::is_digit(low) {
        Ok(text::byte(high, low))
    } else {
        Err(Failure::BadCase)
    }
}

// A space and four digits.
fn word(part: [u8; 5]) -> Result<u16, Failure> {
    let [b' ', a, b, c, d] = part else {
        return Err(Failure::BadCase);
    };
    Ok(u16::from_be_bytes([byte(a, b)?, byte(c, d)?]))
}

impl TryFrom<&[u8]> for Case {
    type Error = Failure;

    fn try_from(line: &[u8]) -> Result<Self, Failure> {
        let [high, low, words @ .., b'\n'] = line else {
            return Err(Failure::BadCase);
        };
        let (&[w1, w2, w3, w4], []) = words.as_chunks::<5>() else {
            return Err(Failure::BadCase);
        };
        Ok(Case {
            function: byte(*high, *low)?,
            words: [word(w1)?, word(w2)?, word(w3)?, word(w4)?],
        })
    }
}

// Writes an answer, and returns where the next one goes.
pub fn put(out: &mut [u8], at: usize, reply: Reply) -> usize
    requires { at + 20 ≤ length out.old }
    ensures { result ≤ at + 20 }
{
    // The one place that prints a refusal: there is nothing to hand it on to.
    let (number, [r1, r2, r3]) = match reply {
        Ok(words) => (0, words),
        Err(Failure::Refused(refusal)) => (refusal.number(), [0; 3]),
        Err(Failure::BadCase) => {
            text::put(out, at, b"bad case\n");
            return at + 9;
        }
    };
    text::put(out, at, b"0000 0000 0000 0000\n");
    for (i, word) in [number as u16, r1, r2, r3].iter().enumerate() {
        text::put(out, at + 5 * i, &text::hex4(*word));
    }
    at + 20
}
