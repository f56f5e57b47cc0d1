// A row of the opcode table: the sixteen places of a high digit.
ghost use Rattle.std.specs.Prelude.{◌≡◌, ◌%◌, get_or};

use super::Entry;

// The place of a byte's low digit in a row. A match and not an index: with constant indices the compiler keeps the rows as constants,
// and no row is built at run time.
pub fn at_digit(row: [Option<Entry>; 16], code: u8) -> Option<Entry>
    ensures { result ≡ get_or row (code % 16) None }
{
    match code % 16 {
        0x0 => row[0],
        0x1 => row[1],
        0x2 => row[2],
        0x3 => row[3],
        0x4 => row[4],
        0x5 => row[5],
        0x6 => row[6],
        0x7 => row[7],
        0x8 => row[8],
        0x9 => row[9],
        0xA => row[10],
        0xB => row[11],
        0xC => row[12],
        0xD => row[13],
        0xE => row[14],
        _ => row[15],
    }
}
