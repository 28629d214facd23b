// A recording heard from an input, of any length.
ghost use Rattle.std.specs.Prelude.{◌≡◌, ◌≤◌, OnOk, length};
ghost use Rattle.shape.specs.Layout.{size};

use laws::Refusal;
use replay::Stream;
use std::error::Error;
use std::fmt;
use std::io::{self, Read};

// Why an input was not heard to its end.
#[derive(Clone, Copy, Debug, PartialEq, Eq)]
pub enum Unheard {
    NotRead,
    NoRoom,
}

impl fmt::Display for Unheard {
    fn fmt<W: fmt::Write>(&self, f: &mut fmt::Formatter<W>) -> fmt::Result {
        match self {
            Unheard::NotRead => write!(f, "the recording could not be read to its end"),
            Unheard::NoRoom => write!(f, "there is no room for the recording"),
        }
    }
}

impl Error for Unheard {}

// Reads more of the input after the window's first `left` bytes: how many bytes came, 0 at the end.
fn read_more<R: Read>(input: &mut R, window: &mut [u8], left: usize) -> io::Result<usize>
    ensures { length window.new ≡ length window.old }
{
    match window.get_mut(left..) {
        Some(room) => input.read(room),
        None => Err(io::Error::from(io::ErrorKind::InvalidInput)),
    }
}

// Whether a bad number was found, which no later part mends.
fn has_bad_number(stream: Stream) -> bool {
    match stream.fault {
        Some(fault) => fault.refusal == Refusal::BadNumber.code(),
        None => false,
    }
}

// Hears the input, part by part, up to its end or to a bad number. A proved loop has to end, and nothing says that the input does: so
// it counts up to a number that no run reaches. What is heard, is heard into a whole picture.
pub fn hear_input<R: Read>(
    input: &mut R,
    picture: &mut [u8],
    window: &mut [u8],
) -> Result<Stream, Unheard>
    ensures whole { OnOk result (size ≤ length picture.old) }
    ensures picture_size { length picture.new ≡ length picture.old }
    ensures window_size { length window.new ≡ length window.old }
{
    let mut stream = replay::begin();
    for turn in 0..u64::MAX {
        let Ok(n) = read_more(input, window, stream.left) else {
            return Err(Unheard::NotRead);
        };
        let Ok(heard) = replay::hear_part(picture, window, stream, n) else {
            return Err(Unheard::NoRoom);
        };
        stream = heard;
        if n == 0 || has_bad_number(stream) {
            break;
        }
    }
    Ok(stream)
}
