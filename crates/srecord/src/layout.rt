// How a line is laid out: pairs of hexadecimal digits, and the sum of its bytes.
ghost use Rattle.std.specs.Prelude.{◌≡◌, ◌%◌};
ghost use Rattle.srecord.specs.Layout.{is_paired, total};

use text::is_digit;

// Whether the text is pairs of digits up to a line feed that ends it.
pub fn paired(text: &[u8]) -> bool
    ensures { result ≡ is_paired text.now }
{
    let mut rest = text;
    while let [a, b, after @ ..] = rest {
        if !(is_digit(*a) && is_digit(*b)) {
            return false;
        }
        rest = after;
    }
    matches!(rest, [b'\n'])
}

// The low byte of a sum.
pub fn sum_of(list: &[u8]) -> u8
    ensures { result ≡ total list.now % 256 }
{
    let mut sum: u8 = 0;
    for &b in list {
        sum = sum.wrapping_add(b);
    }
    sum
}
