// The numbers of a line: hexadecimal digits at fixed places.
// Line and place stand apart: the places are those of a README's table, another in each call.
// Every place is taken: past the end of the line stands 0. A sum that saturates lies past the end of every line, as the place that is meant.
ghost use Rattle.std.specs.Prelude.{◌≡◌, ◌+◌, ◌≤◌};
ghost use Rattle.scenery.specs.Line.{byte_in, length_in, long_in, word_in};

use crate::byte_of;

pub fn byte_at<const N: usize>(line: &[u8; N], at: usize) -> u8
    ensures { result ≡ byte_in line.now at }
{
    text::byte(byte_of(line, at), byte_of(line, at.saturating_add(1)))
}

// So many places behind a place.
pub fn byte_behind<const N: usize>(line: &[u8; N], at: usize, n: usize) -> u8
    ensures { result ≡ byte_in line.now (at + n) }
{
    byte_at(line, at.saturating_add(n))
}

pub fn word_at<const N: usize>(line: &[u8; N], at: usize) -> u16
    ensures { result ≡ word_in line.now at }
{
    u16::from_be_bytes([byte_at(line, at), byte_behind(line, at, 2)])
}

pub fn word_behind<const N: usize>(line: &[u8; N], at: usize, n: usize) -> u16
    ensures { result ≡ word_in line.now (at + n) }
{
    word_at(line, at.saturating_add(n))
}

// Sixteen digits.
pub fn long_at<const N: usize>(line: &[u8; N], at: usize) -> u64
    ensures { result ≡ long_in line.now at }
{
    u64::from_be_bytes([
        byte_at(line, at),
        byte_behind(line, at, 2),
        byte_behind(line, at, 4),
        byte_behind(line, at, 6),
        byte_behind(line, at, 8),
        byte_behind(line, at, 10),
        byte_behind(line, at, 12),
        byte_behind(line, at, 14),
    ])
}

// Five digits, the first of them 0 or 1: a length of at most 10000.
pub fn length_at<const N: usize>(line: &[u8; N], at: usize) -> usize
    ensures { (result ≡ length_in line.now at) × (result ≤ 65536) }
{
    let rest = word_behind(line, at, 1) as usize;
    if byte_of(line, at) == b'1' {
        0x10000
    } else {
        rest
    }
}
