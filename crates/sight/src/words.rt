// The result word of a frame for the bench.
ghost use Rattle.std.specs.Prelude.{◌≡◌};
ghost use Rattle.laws.specs.Codes.{coded};
ghost use Rattle.taking.specs.Taking.{taking};
ghost use Rattle.sight.specs.Words.{taken_word};
ghost use Rattle.sight.specs.Arms.{Took};

use crate::arms::take_own;
use crate::laying::LOWEST;
use bench::SIZE;
use laws::{Refusal, byte_at, wide32};
use replies::ADDRESS_AT;
use results::refused;
use taking::bench_take;

fn taken_word(taken: Result<u16, Refusal>) -> u32
    ensures { result ≡ taken_word (coded taken) }
{
    match taken {
        Ok(count) => count as u32,
        Err(refusal) => refused(refusal.code()),
    }
}

// Any frame, read as a message.
pub(crate) fn any_word(
    bench: &mut [u8],
    identifier: u32,
    remote: u32,
    data: &[u8],
    replies: &mut [u8],
) -> u32
    ensures { Took bench.old identifier remote «data».now replies.old result bench.new replies.new }
{
    taken_word(bench_take(bench, identifier, remote, data, replies))
}

// Takes a frame as `bench_take` does, and answers the result word: one number, which each arm gives as it is.
pub fn take_word(
    bench: &mut [u8],
    identifier: u32,
    remote: u32,
    data: &[u8],
    replies: &mut [u8],
) -> u32
    ensures value { result ≡ taken_word (taking bench.old identifier remote «data».now replies.old).answer }
    ensures bench_after { bench.new ≡ (taking bench.old identifier remote «data».now replies.old).bench }
    ensures replies_after { replies.new ≡ (taking bench.old identifier remote «data».now replies.old).buffer }
{
    if bench.len() < SIZE {
        return refused(Refusal::TooShort.code());
    }
    let address = byte_at(bench, ADDRESS_AT);
    if identifier != LOWEST + 2 * wide32(address) {
        return any_word(bench, identifier, remote, data, replies);
    }
    if remote != 0 {
        return any_word(bench, identifier, remote, data, replies);
    }
    take_own(bench, address, identifier, data, replies)
}
