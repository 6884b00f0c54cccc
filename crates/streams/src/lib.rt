// What a program reads from a stream and writes to one.
#![tactic(auto)]

ghost use Rattle.std.specs.Prelude.{◌≡◌, length, take, IfOk, IfSome, OnOk, OnErr};
ghost use Rattle.std.specs.Io.{ReadsAtMost};
ghost use Rattle.std.specs.Io.KnownBytes.{Appends, Consumes};
ghost use Rattle.streams.specs.Fronts.{AppendsFront, ConsumesFront};

use std::io;
use std::io::{Read, Write};

// Reads until `buf` is full or the input ends, and answers how many bytes it put at the start of `buf`. A failed read is an
// error, and never a shorter file: a front of `buf` then has what was read before.
pub fn read_full<R: Read>(reader: &mut R, buf: &mut [u8]) -> io::Result<usize>
    ensures in_bounds { ReadsAtMost result buf.new }
    ensures bytes { IfOk result (λ count. IfSome (R.remaining reader.old) (λ input. take count buf.new ≡ take (length buf.old) input)) }
    ensures consumed { IfOk result (λ count. Consumes (R.remaining reader.old) (R.remaining reader.new) (take count buf.new)) }
    ensures front { OnErr result (ConsumesFront (R.remaining reader.old) (R.remaining reader.new) buf.new) }
{
    // No `for`: how far a turn goes is what the reader gives.
    let mut done = 0;
    while done < buf.len() {
        let count = reader.read(&mut buf[done..])?;
        if count == 0 {
            break;
        }
        done += count;
    }
    Ok(done)
}

// Writes all of `bytes`. After a failed write, or one that takes nothing, a front of them is written.
pub fn write_full<W: Write>(writer: &mut W, bytes: &[u8]) -> io::Result<()>
    ensures all { OnOk result (Appends (W.contents writer.old) (W.contents writer.new) bytes.now) }
    ensures front { AppendsFront (W.contents writer.old) (W.contents writer.new) bytes.now }
{
    // No `for`: how far a turn goes is what the writer takes.
    let mut done = 0;
    while done < bytes.len() {
        let count = writer.write(&bytes[done..])?;
        if count == 0 {
            return Err(io::Error::from(io::ErrorKind::WriteZero));
        }
        done += count;
    }
    Ok(())
}

#[cfg(test)]
mod tests {
    use super::*;
    use std::test::Fail;

    // Gives so many bytes, one at a time, and then fails.
    #[derive(Drop)]
    struct Broken {
        left: usize,
    }

    impl Read for Broken {
        fn read(&mut self, buf: &mut [u8]) -> io::Result<usize> {
            if self.left == 0 || buf.is_empty() {
                return Err(io::Error::from(io::ErrorKind::Other));
            }
            self.left -= 1;
            buf[0] = 1;
            Ok(1)
        }
    }

    // Takes so many bytes, one at a time, and then fails.
    #[derive(Drop)]
    struct Full {
        room: usize,
    }

    impl Write for Full {
        fn write(&mut self, buf: &[u8]) -> io::Result<usize> {
            if self.room == 0 || buf.is_empty() {
                return Err(io::Error::from(io::ErrorKind::Other));
            }
            self.room -= 1;
            Ok(1)
        }

        fn flush(&mut self) -> io::Result<()> {
            Ok(())
        }
    }

    #[test]
    fn a_failed_read_is_an_error(rt: HostRuntime) -> Result<(), Fail> {
        let mut file = [0u8; 100];
        for given in [0, 1, 48, 99] {
            assert!(rt; read_full(&mut Broken { left: given }, &mut file).is_err());
        }
        let count = read_full(&mut Broken { left: 100 }, &mut file)?;
        assert!(rt; count == 100);
        let mut input: &[u8] = b"abc";
        let count = read_full(&mut input, &mut file)?;
        assert!(rt; count == 3);
        assert!(rt; &file[..3] == b"abc".as_slice());
        Ok(())
    }

    #[test]
    fn a_failed_write_is_an_error(rt: HostRuntime) -> Result<(), Fail> {
        for room in [0, 1, 2] {
            assert!(rt; write_full(&mut Full { room }, b"abc").is_err());
        }
        write_full(&mut Full { room: 3 }, b"abc")?;
        let mut room = [0u8; 2];
        let mut left: &mut [u8] = &mut room;
        assert!(rt; write_full(&mut left, b"abc").is_err());
        assert!(rt; room == *b"ab");
        Ok(())
    }
}
