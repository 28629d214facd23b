// The plan of reads, and the test of a proposed one.
ghost use Rattle.std.specs.Prelude.{◌≡◌};
ghost use Rattle.plan.specs.Replies.{plan_bytes_reply, right_bytes_answer};
ghost use Rattle.results.specs.Words.{answer_word};

use questions::AddressAsked;
use results::{refused, value_word};

pub fn velbus_plan(picture: &[u8], address: u32, out: &mut [u8]) -> u32
    ensures value { result ≡ answer_word (plan_bytes_reply picture.now address out.old).answer }
    ensures out_after { out.new ≡ (plan_bytes_reply picture.now address out.old).buffer }
{
    value_word(plan::plan_bytes(picture, AddressAsked(address), out))
}

pub fn velbus_right_plan(picture: &[u8], address: u32, starts: &[u8]) -> u32
    ensures { result ≡ answer_word (right_bytes_answer picture.now address starts.now) }
{
    match plan::right_plan_bytes(picture, AddressAsked(address), starts) {
        Ok(right) => right as u32,
        Err(refusal) => refused(refusal.code()),
    }
}
