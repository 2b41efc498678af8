// Reading from a stream that may give less at a time than was asked for.
#![tactic(auto)]

ghost use Rattle.std.specs.Prelude.{◌≡◌, ℕ, ◌<◌, take, length, IfOk, OnErr};
ghost use Rattle.std.specs.Io.{ReadsAtMost};
ghost use Rattle.std.specs.Io.KnownBytes.{Consumes, IsAtEnd};

use std::io;
use std::io::Read;

// Reads until `buf` is full or the input ends, and answers how many bytes it put at the start of `buf`. The bytes are
// the reader's next ones, and fewer than fit are its last. An error is one that the reader gave; what was read before
// it is lost to the caller.
pub fn read_full<R: Read>(reader: &mut R, buf: &mut [u8]) -> io::Result<usize>
    ensures bound { ReadsAtMost result buf.new }
    ensures bytes { IfOk result (λ n. Consumes (R.remaining reader.old) (R.remaining reader.new) (take n buf.new)) }
    ensures end { IfOk result (λ n. n < length buf.new → IsAtEnd (R.remaining reader.new)) }
    ensures err { OnErr result ((n : ℕ) × Consumes (R.remaining reader.old) (R.remaining reader.new) (take n buf.new)) }
{
    let mut done = 0;
    // How far a read comes is the reader's to say.
    while done < buf.len() {
        let n = reader.read(&mut buf[done..])?;
        if n == 0 {
            break;
        }
        done += n;
    }
    Ok(done)
}

#[cfg(test)]
mod tests {
    use super::*;
    use std::test::Fail;

    // Gives the bytes from `next` to `last`, one at a time, and then ends or fails.
    #[derive(Drop)]
    struct Slow {
        next: u8,
        last: u8,
        fails: bool,
    }

    impl Read for Slow {
        fn read(&mut self, buf: &mut [u8]) -> io::Result<usize> {
            if buf.is_empty() {
                return Ok(0);
            }
            if self.next > self.last {
                if self.fails {
                    return Err(io::Error::from(io::ErrorKind::Other));
                }
                return Ok(0);
            }
            buf[0] = self.next;
            self.next = self.next.saturating_add(1);
            Ok(1)
        }
    }

    #[test]
    fn reads_part_after_part(rt: HostRuntime) -> Result<(), Fail> {
        let mut reader = Slow {
            next: 1,
            last: 5,
            fails: false,
        };
        let mut buf = [0u8; 3];
        assert_eq!(rt; read_full(&mut reader, &mut buf)?, 3);
        assert_eq!(rt; buf, [1, 2, 3]);
        assert_eq!(rt; read_full(&mut reader, &mut buf)?, 2);
        assert_eq!(rt; buf, [4, 5, 3]);
        assert_eq!(rt; read_full(&mut reader, &mut buf)?, 0);
        Ok(())
    }

    #[test]
    fn fails_in_mid_stream(rt: HostRuntime) {
        let mut reader = Slow {
            next: 1,
            last: 2,
            fails: true,
        };
        let mut buf = [0u8; 4];
        assert!(rt; read_full(&mut reader, &mut buf).is_err());
        assert!(rt; read_full(&mut reader, &mut buf).is_err());
    }
}
