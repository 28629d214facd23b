// A frame for the bench.
ghost use Rattle.std.specs.Prelude.{◌≡◌, ◌≤◌, length};
ghost use Rattle.laws.specs.Codes.{coded};
ghost use Rattle.replies.specs.Bench.{bench_size};
ghost use Rattle.taking.specs.Taking.{given, taking};

use bench::{SIZE, act_on, reply, reply_count};
use codec::FRAME_SIZE;
use frame::Message;
use laws::{Refusal, byte_at};
use replies::ADDRESS_AT;
use verdicts::judge;

// A message that is taken: its deed is done and its replies are written, unless the buffer has no room for them.
fn give(bench: &mut [u8], m: Message, replies: &mut [u8]) -> Result<u16, Refusal>
    ensures value { coded result ≡ (given bench.old m replies.old).answer }
    ensures bench_after { bench.new ≡ (given bench.old m replies.old).bench }
    ensures replies_after { replies.new ≡ (given bench.old m replies.old).buffer }
{
    let n = reply_count(m);
    if (FRAME_SIZE * n) as usize <= replies.len() {
        act_on(bench, m);
        reply(bench, m, replies);
        Ok(n)
    } else {
        Err(Refusal::TooShort)
    }
}

// Any frame for a whole bench, read as a message.
fn take_any(
    bench: &mut [u8],
    identifier: u32,
    remote: u32,
    data: &[u8],
    replies: &mut [u8],
) -> Result<u16, Refusal>
    requires { bench_size ≤ length bench.old }
    ensures value { coded result ≡ (taking bench.old identifier remote «data».now replies.old).answer }
    ensures bench_after { bench.new ≡ (taking bench.old identifier remote «data».now replies.old).bench }
    ensures replies_after { replies.new ≡ (taking bench.old identifier remote «data».now replies.old).buffer }
{
    let own = judge(byte_at(bench, ADDRESS_AT), identifier, remote, data)?;
    match own {
        Some(m) => give(bench, m, replies),
        None => Ok(0),
    }
}

// Takes a frame: does what it asks, writes the replies in order into `replies`, twelve bytes each, and answers their number; or refuses, and changes nothing.
pub fn bench_take(
    bench: &mut [u8],
    identifier: u32,
    remote: u32,
    data: &[u8],
    replies: &mut [u8],
) -> Result<u16, Refusal>
    ensures value { coded result ≡ (taking bench.old identifier remote «data».now replies.old).answer }
    ensures bench_after { bench.new ≡ (taking bench.old identifier remote «data».now replies.old).bench }
    ensures replies_after { replies.new ≡ (taking bench.old identifier remote «data».now replies.old).buffer }
{
    if bench.len() < SIZE {
        return Err(Refusal::TooShort);
    }
    take_any(bench, identifier, remote, data, replies)
}
