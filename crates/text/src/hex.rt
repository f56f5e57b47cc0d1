// Hexadecimal digits, in capitals.
ghost use Rattle.std.specs.Prelude.{◌≡◌, ◌<◌};
ghost use Rattle.text.specs.Hex.{glyph, hex2 as Hex·hex2, hex4 as Hex·hex4, is_digit, digit_value, byte_of};

fn digit(d: u8) -> u8
    requires { d < 16 }
    ensures { result ≡ glyph d }
{
    b"0123456789ABCDEF"[d as usize]
}

pub fn hex2(b: u8) -> [u8; 2]
    ensures { result ≡ Hex·hex2 b }
{
    [digit(b / 16), digit(b % 16)]
}

// Not one generic function with `hex2`: it would return 2 * N letters, and no length is computed from N.
pub fn hex4(w: u16) -> [u8; 4]
    ensures { result ≡ Hex·hex4 w }
{
    let [high, low] = w.to_be_bytes();
    [
        digit(high / 16),
        digit(high % 16),
        digit(low / 16),
        digit(low % 16),
    ]
}

pub fn is_digit(c: u8) -> bool
    ensures { result ≡ is_digit c }
{
    matches!(c, b'0'..=b'9' | b'A'..=b'F')
}

// What a digit stands for, 0 for any other character.
// No Option: `digit_value`, which the contract names, is 0 there.
pub fn value(c: u8) -> u8
    ensures { (result ≡ digit_value c) × (result < 16) }
{
    match c {
        b'0'..=b'9' => c - b'0',
        b'A'..=b'F' => c - b'A' + 10,
        _ => 0,
    }
}

// The byte of two digits.
pub fn byte(high: u8, low: u8) -> u8
    ensures { result ≡ byte_of high low }
{
    16 * value(high) + value(low)
}
