// An input into a lent buffer. One that ends is told apart from a read that fails.
// No contract can say which bytes a file or a terminal gives: what is said is that the count lies within the buffer, and of a reader
// that knows its bytes, which of them were read.
ghost use Rattle.std.specs.Prelude.{length};
ghost use Rattle.shell.specs.Within.{Within, Reads, ReadsAll};

use std::io;
use std::io::Read;

// How many bytes a buffer of the programs has.
pub const BUFFER: usize = 4096;

// One read. No bytes: the input has ended.
pub fn read_some<R: Read>(input: &mut R, buf: &mut [u8]) -> io::Result<usize>
    ensures within { Within result (length buf.old) }
    ensures bytes { Reads (R.remaining input.old) (R.remaining input.new) result buf.new }
{
    let n = input.read(buf)?;
    Ok(n)
}

// Reads until the buffer is full, the input ends or a read fails.
pub fn read_input<R: Read>(input: &mut R, buf: &mut [u8]) -> io::Result<usize>
    ensures within { Within result (length buf.old) }
    ensures bytes { ReadsAll (R.remaining input.old) (R.remaining input.new) result buf.new }
{
    let mut done: usize = 0;
    while done < buf.len() {
        let more = read_some(input, &mut buf[done..])?;
        if more == 0 {
            return Ok(done);
        }
        done += more;
    }
    Ok(done)
}
