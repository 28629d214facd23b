// Hearing an input that comes in parts, through a window: a buffer whose first bytes are what is not yet heard.
ghost use Rattle.std.specs.Prelude.{◌≡◌, ◌+◌, ◌≤◌, length, take, nat_le};
ghost use Rattle.laws.specs.Codes.{code_of};
ghost use Rattle.replay.specs.Replay.{heard_by, replayed, told_replay};
ghost use Rattle.replay.specs.Window.{kept, told_stop, told_stream, told_part, shifted, advanced, begun, part_answer, part_picture, part_window};

use crate::records::{Replay, hear_records};
use laws::Refusal;
use recording::Fault;
use shape::SIZE;

// Where the hearing stopped before the end: the refusal's number, which may be any that a caller hands in, and its offset.
#[derive(Clone, Copy, Debug, PartialEq, Eq)]
pub struct Stop {
    pub refusal: u16,
    pub offset: u64,
}

// What is kept between two parts: the records accepted and refused, the offset of the window's first byte, how many of the window's
// bytes are not yet heard, and the fault that stopped the hearing, where the end did not. The counts and the offsets are kept modulo 2^64.
#[derive(Clone, Copy, Debug, PartialEq, Eq)]
pub struct Stream {
    pub heard: u64,
    pub refused: u64,
    pub base: u64,
    pub left: usize,
    pub fault: Option<Stop>,
}

// Moves the bytes from `from` to `filled` to the front.
fn shift(window: &mut [u8], from: usize, filled: usize)
    requires { (from ≤ filled) × (filled ≤ length window.old) }
    ensures { window.new ≡ shifted window.old from filled }
{
    window.copy_within(from..filled, 0);
}

// Hears the records of the window's first `filled` bytes, and moves what is left to the front.
fn turn(picture: &mut [u8], window: &mut [u8], filled: usize) -> Replay
    requires { filled ≤ length window.old }
    ensures value { told_replay result ≡ (replayed heard_by picture.old (take filled window.old)).replay }
    ensures picture_after { picture.new ≡ (replayed heard_by picture.old (take filled window.old)).picture }
    ensures window_after { window.new ≡ shifted window.old result.at filled }
{
    let r = hear_records(picture, &window[0..filled]);
    let at = r.at;
    shift(window, at, filled);
    r
}

// The n bytes after the first `left` lie in a window of `len` bytes.
fn fits(left: usize, n: usize, len: usize) -> bool
    ensures { result ≡ nat_le (left + n) len }
{
    if len < left {
        return false;
    }
    if len - left < n {
        return false;
    }
    true
}

// A fault in the window, at its offset in the whole input.
fn in_input(base: u64, fault: Fault) -> Stop
    ensures { told_stop result ≡ (code_of fault.refusal, kept (base + fault.offset)) }
{
    Stop {
        refusal: fault.refusal.code(),
        offset: std::num::wrapping_add_u64(base, fault.offset as u64),
    }
}

// What is kept after the replay of the window's first `filled` bytes.
fn advance(stream: Stream, r: Replay, filled: usize) -> Stream
    requires { r.at ≤ filled }
    ensures { told_stream result ≡ advanced (told_stream stream) (told_replay r) filled }
{
    let fault = match r.fault {
        Some(fault) => Some(in_input(stream.base, fault)),
        None => None,
    };
    Stream {
        heard: std::num::wrapping_add_u64(stream.heard, r.heard),
        refused: std::num::wrapping_add_u64(stream.refused, r.refused),
        base: std::num::wrapping_add_u64(stream.base, r.at as u64),
        left: filled - r.at,
        fault,
    }
}

// Nothing is heard yet.
pub fn begin() -> Stream
    ensures { told_stream result ≡ begun }
{
    Stream {
        heard: 0,
        refused: 0,
        base: 0,
        left: 0,
        fault: None,
    }
}

// Hears the records that the next part completes: its n bytes stand in the window after the first `left`. What is left of it is at the
// window's front again.
pub fn hear_part(
    picture: &mut [u8],
    window: &mut [u8],
    stream: Stream,
    n: usize,
) -> Result<Stream, Refusal>
    ensures value { told_part result ≡ part_answer picture.old window.old (told_stream stream) n }
    ensures picture_after { picture.new ≡ part_picture picture.old window.old (told_stream stream) n }
    ensures window_after { window.new ≡ part_window picture.old window.old (told_stream stream) n }
{
    let left = stream.left;
    if picture.len() < SIZE || !fits(left, n, window.len()) {
        return Err(Refusal::TooShort);
    }
    let filled = left + n;
    let r = turn(picture, window, filled);
    Ok(advance(stream, r, filled))
}
