// A message's parts in 20 bytes, each number low byte first.
ghost use Rattle.std.specs.Prelude.{◌≡◌, ◌≤◌, length};
ghost use Rattle.layouts.specs.Layout.{message_size, laid_bytes, taken_parts, blank_between, held_in};

use crate::parts::{Parts, Six, held_by};
use frame::{Address, Message};
use laws::{both, number16, number32};

pub const MESSAGE_SIZE: u16 = 20;

pub fn laid(p: Parts) -> [u8; 20]
    ensures { result ≡ laid_bytes p }
{
    let s = p.bytes;
    [
        p.what,
        p.address,
        p.channel,
        p.glow,
        (p.location % 256) as u8,
        (p.location / 256 % 256) as u8,
        s.0,
        s.1,
        s.2,
        s.3,
        s.4,
        s.5,
        p.time,
        0,
        0,
        0,
        (p.seconds % 256) as u8,
        (p.seconds / 256 % 256) as u8,
        (p.seconds / 65536 % 256) as u8,
        (p.seconds / 16777216 % 256) as u8,
    ]
}

fn taken(b: &[u8]) -> Parts
    requires { message_size ≤ length b.now }
    ensures { result ≡ taken_parts b.now }
{
    Parts {
        what: b[0],
        address: b[1],
        channel: b[2],
        glow: b[3],
        location: number16(b[4], b[5]),
        bytes: Six(b[6], b[7], b[8], b[9], b[10], b[11]),
        time: b[12],
        seconds: number32(b[16], b[17], b[18], b[19]),
    }
}

fn blank_between(b: &[u8]) -> bool
    requires { message_size ≤ length b.now }
    ensures { result ≡ blank_between b.now }
{
    both(b[13] == 0, both(b[14] == 0, b[15] == 0))
}

// The message that the first bytes are.
pub fn held_in(b: &[u8]) -> Option<(Address, Message)>
    ensures { result ≡ held_in b.now }
{
    if b.len() < MESSAGE_SIZE as usize {
        return None;
    }
    if blank_between(b) {
        held_by(taken(b))
    } else {
        None
    }
}
