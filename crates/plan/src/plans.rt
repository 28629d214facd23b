// The plan, written into a lent list.
ghost use Rattle.std.specs.Prelude.{◌≡◌, ◌++◌, ◌+◌, ◌*◌, ◌/◌, ◌%◌, ◌<◌, ◌≤◌, leb, length, drop, set};
ghost use Rattle.laws.specs.Codes.{coded};
ghost use Rattle.shape.specs.Answers.{valued};
ghost use Rattle.shape.specs.Limits.{room};
ghost use Rattle.shape.specs.Layout.{size};
ghost use Rattle.questions.specs.Statements.{in_bytes};
ghost use Rattle.reads.specs.Plan.{plan_of, least_reads};
ghost use Rattle.plan.specs.Replies.{row_at, memory_in, as_entries, laid, plan_reply, plan_bytes_reply};

use crate::cells::{least, memory_at, next_unknown, number_at, past_known};
use laws::Refusal;
use questions::{AddressAsked, cells_in, module_asked};
use reads::{BLOCK, start_for};
use shape::NOT_HEARD;

// Whether a list of so many entries holds the plan. One with an entry for each block of cells always does, so that the reads need not be counted first.
fn fits(picture: &[u8], at: usize, cells: usize, entries: usize) -> bool
    requires { (at + 2 * cells ≤ length picture.now) × (cells < 65536) }
    ensures { result ≡ leb (least_reads (row_at picture.now at cells)) entries }
{
    if (cells + BLOCK - 1) / BLOCK <= entries {
        return true;
    }
    least(picture, at, cells) <= entries
}

// Writes the plan to the first entries, and answers how many they are.
fn write_entries(picture: &[u8], at: usize, cells: usize, starts: &mut [u16]) -> u16
    requires { (at + 2 * cells ≤ length picture.now) × (cells < 65536) × (least_reads (row_at picture.now at cells) ≤ length starts.old) }
    ensures value { result ≡ least_reads (row_at picture.now at cells) }
    ensures starts_after { starts.new ≡ plan_of (row_at picture.now at cells) ++ drop (length (plan_of (row_at picture.now at cells))) starts.old }
{
    let mut count: usize = 0;
    let mut cell = next_unknown(picture, at, cells, 0);
    // A while: each read says from which cell on the next is looked for.
    while cell < cells {
        let start = start_for(cells, cell);
        starts[count] = start as u16;
        count += 1;
        cell = next_unknown(picture, at, cells, start + BLOCK);
    }
    count as u16
}

// A start as two bytes, low byte first.
fn put_start(out: &mut [u8], count: usize, start: usize)
    requires { (2 * count + 2 ≤ length out.old) × (start < 65536) }
    ensures { out.new ≡ set (set out.old (2 * count) (start % 256)) (2 * count + 1) (start / 256) }
{
    out[2 * count] = (start % 256) as u8;
    out[2 * count + 1] = (start / 256) as u8;
}

// The same as bytes, two for each start, low byte first. Where a whole block of cells is left an unknown cell is itself the start, so that no start is
// chosen there and no end tested again; for the cells after that there is at most one read.
fn write_bytes(picture: &[u8], at: usize, cells: usize, out: &mut [u8]) -> u16
    requires { (at + 2 * cells ≤ length picture.now) × (cells < 65536) × (2 * least_reads (row_at picture.now at cells) ≤ length out.old) }
    ensures value { result ≡ least_reads (row_at picture.now at cells) }
    ensures out_after { out.new ≡ in_bytes (plan_of (row_at picture.now at cells)) ++ drop (length (in_bytes (plan_of (row_at picture.now at cells)))) out.old }
{
    let mut count: usize = 0;
    let mut cell: usize = 0;
    // A while: how far a turn goes on depends on the cells.
    while cell + BLOCK <= cells {
        if number_at(picture, at + 2 * cell) == NOT_HEARD {
            put_start(out, count, cell);
            count += 1;
            cell += BLOCK;
        } else {
            cell = past_known(picture, at, cells, cell);
        }
    }
    let last = next_unknown(picture, at, cells, cell);
    if last < cells {
        put_start(out, count, start_for(cells, last));
        return (count + 1) as u16;
    }
    count as u16
}

// Writes the starts of the plan's reads, rising, and answers how many there are. The entries beyond keep theirs.
pub fn plan(picture: &[u8], address: AddressAsked, starts: &mut [u16]) -> Result<u16, Refusal>
    ensures value { valued (coded result) ≡ (plan_reply picture.now address.0 starts.old).answer }
    ensures starts_after { starts.new ≡ (plan_reply picture.now address.0 starts.old).buffer }
{
    let slot = module_asked(picture, address)?;
    let cells = cells_in(picture, slot);
    let at = memory_at(picture, slot);
    if fits(picture, at, cells, starts.len()) {
        Ok(write_entries(picture, at, cells, starts))
    } else {
        Err(Refusal::TooShort)
    }
}

// The same as bytes. An odd last byte holds no start, and keeps its own.
pub fn plan_bytes(picture: &[u8], address: AddressAsked, out: &mut [u8]) -> Result<u16, Refusal>
    ensures value { valued (coded result) ≡ (plan_bytes_reply picture.now address.0 out.old).answer }
    ensures out_after { out.new ≡ (plan_bytes_reply picture.now address.0 out.old).buffer }
{
    let slot = module_asked(picture, address)?;
    let cells = cells_in(picture, slot);
    let at = memory_at(picture, slot);
    if fits(picture, at, cells, out.len() / 2) {
        Ok(write_bytes(picture, at, cells, out))
    } else {
        Err(Refusal::TooShort)
    }
}
