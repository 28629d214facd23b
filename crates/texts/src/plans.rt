// The line of a module's plan of reads.
ghost use Rattle.std.specs.Prelude.{◌≡◌, ◌/◌, ◌<◌, ◌≤◌, length, take};
ghost use Rattle.laws.specs.Codes.{coded};
ghost use Rattle.shape.specs.Answers.{valued};
ghost use Rattle.shape.specs.Limits.{room};
ghost use Rattle.places.specs.Places.{places};
ghost use Rattle.shape.specs.Layout.{size};
ghost use Rattle.questions.specs.Replies.{slot_asked};
ghost use Rattle.reads.specs.Reads.{block};
ghost use Rattle.reads.specs.Plan.{plan_of};
ghost use Rattle.plan.specs.Replies.{memory_in};
ghost use Rattle.texts.specs.Text.{Fits, Written};
ghost use Rattle.texts.specs.Plans.{start_text, starts_text, reads_line, plan_line, lined, line_reply};

use crate::lines::put_numbered;
use crate::text::{put_byte, put_hex, put_text};
use laws::Refusal;
use places::PLACES;
use questions::{AddressAsked, module_asked};

// The most starts of a plan: one for each block of four cells.
const MOST_STARTS: usize = PLACES / 4;

// The room that the longest line takes.
pub const PLAN_ROOM: usize = 24 + 5 * MOST_STARTS;

fn put_start(out: &mut [u8], at: usize, start: u16) -> usize
    requires { Fits out.old at (start_text start) }
    ensures { Written out.old at (start_text start) out.new result }
{
    let high = put_byte(out, at, b' ');
    let low = put_hex(out, high, (start / 256) as u8);
    put_hex(out, low, (start % 256) as u8)
}

fn put_starts(out: &mut [u8], at: usize, starts: &[u16]) -> usize
    requires { Fits out.old at (starts_text starts.now (length starts.now)) }
    ensures { Written out.old at (starts_text starts.now (length starts.now)) out.new result }
{
    let mut next = at;
    for start in starts {
        next = put_start(out, next, *start);
    }
    next
}

// The number of reads and their starts.
fn put_reads(out: &mut [u8], at: usize, address: u8, starts: &[u16]) -> usize
    requires { Fits out.old at (reads_line address starts.now) }
    ensures { Written out.old at (reads_line address starts.now) out.new result }
{
    let count = put_hex(out, at, address);
    let list = put_numbered(out, count, b" ", starts.len() as u64);
    let end = put_starts(out, list, starts);
    put_byte(out, end, b'\n')
}

fn put_plan_line(out: &mut [u8], at: usize, address: u8, starts: &[u16]) -> usize
    requires { Fits out.old at (plan_line address starts.now) }
    ensures { Written out.old at (plan_line address starts.now) out.new result }
{
    if starts.len() == 0 {
        let words = put_hex(out, at, address);
        return put_text(out, words, b" nothing to read\n");
    }
    put_reads(out, at, address, starts)
}

// The plan of the module at a listed address, which so many entries always hold, and how many reads it has.
fn planned(picture: &[u8], slot: u8, address: AddressAsked, starts: &mut [u16]) -> usize
    requires { (size ≤ length picture.now) × (slot < room) × (slot ≡ slot_asked picture.now address.0) × (length starts.old ≡ places / block) }
    ensures { (result ≤ places / block) × (take result starts.new ≡ plan_of (memory_in picture.now slot)) × (length (plan_of (memory_in picture.now slot)) ≡ result) }
{
    let count = plan::plan(picture, address, starts).unwrap();
    count as usize
}

// Of the module in a slot, which is that of the address.
fn put_plan_in(
    picture: &[u8],
    slot: u8,
    address: AddressAsked,
    out: &mut [u8],
) -> Result<u16, Refusal>
    requires { (size ≤ length picture.now) × (slot < room) × (slot ≡ slot_asked picture.now address.0) }
    ensures value { valued (coded result) ≡ (lined address.0 (memory_in picture.now slot) out.old).answer }
    ensures out_after { out.new ≡ (lined address.0 (memory_in picture.now slot) out.old).buffer }
{
    if out.len() < PLAN_ROOM {
        return Err(Refusal::TooShort);
    }
    let number = address.0;
    let mut starts = [0u16; MOST_STARTS];
    let count = planned(picture, slot, address, &mut starts);
    Ok(put_plan_line(out, 0, (number % 256) as u8, &starts[..count]) as u16)
}

// The line of the module at an address, at the front of a buffer of PLAN_ROOM bytes or more, and how many bytes it is.
pub fn put_plan(picture: &[u8], address: AddressAsked, out: &mut [u8]) -> Result<u16, Refusal>
    ensures value { valued (coded result) ≡ (line_reply picture.now address.0 out.old).answer }
    ensures out_after { out.new ≡ (line_reply picture.now address.0 out.old).buffer }
{
    let slot = module_asked(picture, address)?;
    put_plan_in(picture, slot, address, out)
}
