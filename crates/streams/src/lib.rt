// Reading of standard input, for the programs.
#![tactic(auto)]

ghost use Rattle.std.specs.Prelude.{◌≡◌, ◌<◌, IfOk, length, take};
ghost use Rattle.std.specs.Io.KnownBytes.{Consumes, IsAtEnd};
ghost use Rattle.streams.specs.Counts.{IsPrefixLen, IsZeros};

use std::io;
use std::io::Read;

// Reads until buf is full or the input ends, and returns how many bytes it put at the start of buf. On an empty buf it reads nothing.
pub fn read_full<R: Read>(from: &mut R, buf: &mut [u8]) -> io::Result<usize>
    ensures bound { IfOk result (λ n. IsPrefixLen n buf.new) }
    ensures bytes { IfOk result (λ n. Consumes (R.remaining from.old) (R.remaining from.new) (take n buf.new)) }
    ensures end { IfOk result (λ n. n < length buf.new → IsAtEnd (R.remaining from.new)) }
{
    let mut done = 0;
    // How much a read gives is known after it, so that no range counts the turns.
    while done < buf.len() {
        let n = from.read(&mut buf[done..])?;
        if n == 0 {
            return Ok(done);
        }
        done += n;
    }
    Ok(done)
}

// An array for what is read or written: the proof of a caller knows its length, and need not open it.
pub fn zeros<const N: usize>() -> [u8; N]
    ensures count { N ≡ length result }
    ensures bytes { IsZeros N result }
{
    [0; N]
}

#[cfg(test)]
mod tests {
    use super::*;
    use std::io::ErrorKind;

    #[derive(Drop)]
    struct Broken;

    impl Read for Broken {
        fn read(&mut self, _buf: &mut [u8]) -> io::Result<usize> {
            Err(io::Error::from(ErrorKind::Other))
        }
    }

    // Reads that give less than there is room for are followed by others, until the buffer is full or there is no more.
    #[test]
    fn reads_on_until_full_or_at_the_end(rt: HostRuntime) -> io::Result<()> {
        let mut from = (&b"ab"[..]).chain(&b"cde"[..]);
        let mut buf = [b'.'; 4];
        assert_eq!(rt; read_full(&mut from, &mut buf)?, 4);
        assert!(rt; buf == *b"abcd");
        assert_eq!(rt; read_full(&mut from, &mut buf)?, 1);
        assert!(rt; buf[0] == b'e');
        assert_eq!(rt; read_full(&mut from, &mut buf)?, 0);
        Ok(())
    }

    #[test]
    fn a_read_that_fails_is_an_error(rt: HostRuntime) {
        let mut from = (&b"ab"[..]).chain(Broken);
        let mut buf = [b'.'; 4];
        assert!(rt; read_full(&mut from, &mut buf).is_err());
    }
}
