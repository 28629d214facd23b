// An input read into a buffer.
ghost use Rattle.std.specs.Io.{ReadsAtMost};

use std::io::{self, Read};

// Reads until the buffer is full or the input ends; how many bytes it then has of the input.
pub fn read_full<R: Read>(input: &mut R, buf: &mut [u8]) -> io::Result<usize>
    ensures { ReadsAtMost result buf.new }
{
    let mut done = 0;
    // A while, since the input says how far each turn goes: a count of turns would be no plainer.
    while done < buf.len() {
        let n = input.read(&mut buf[done..])?;
        if n == 0 {
            break;
        }
        done += n;
    }
    Ok(done)
}
