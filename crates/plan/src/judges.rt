// The test of a proposed plan.
ghost use Rattle.std.specs.Prelude.{◌≡◌, ◌+◌, ◌*◌, ◌/◌, ◌<◌, ◌≤◌, length, take};
ghost use Rattle.laws.specs.Codes.{coded};
ghost use Rattle.shape.specs.Limits.{room};
ghost use Rattle.shape.specs.Layout.{size};
ghost use Rattle.reads.specs.Judging.{none_missed, right_plan};
ghost use Rattle.plan.specs.Replies.{row_at, memory_in, judged, right_answer, starts_in, right_in_bytes, right_bytes_answer};

use crate::cells::{least, memory_at, number_at};
use laws::{Refusal, number16};
use places::PLACES;
use questions::{AddressAsked, cells_in, module_asked};
use reads::{BLOCK, all_legal, is_missed};

// No plan of any type has more starts.
const MOST_STARTS: usize = PLACES / BLOCK;

// Whether no cell is missed.
fn none_missed(picture: &[u8], at: usize, cells: usize, starts: &[u16]) -> bool
    requires { at + 2 * cells ≤ length picture.now }
    ensures { result ≡ none_missed starts.now 0 (row_at picture.now at cells) }
{
    for cell in 0..cells {
        if is_missed(starts, cell, number_at(picture, at + 2 * cell)) {
            return false;
        }
    }
    true
}

// Whether the reads, in any order, are each legal, miss no unknown cell, and are as few as will do.
fn right_among(picture: &[u8], at: usize, cells: usize, starts: &[u16]) -> bool
    requires { at + 2 * cells ≤ length picture.now }
    ensures { result ≡ right_plan (row_at picture.now at cells) starts.now }
{
    if starts.len() != least(picture, at, cells) {
        return false;
    }
    if all_legal(cells, starts) {
        return none_missed(picture, at, cells, starts);
    }
    false
}

fn right_in(picture: &[u8], slot: u8, starts: &[u16]) -> bool
    requires { (size ≤ length picture.now) × (slot < room) }
    ensures { result ≡ right_plan (memory_in picture.now slot) starts.now }
{
    let cells = cells_in(picture, slot);
    let at = memory_at(picture, slot);
    right_among(picture, at, cells, starts)
}

// Whether the proposed plan is right.
pub fn right_plan(picture: &[u8], address: AddressAsked, starts: &[u16]) -> Result<bool, Refusal>
    ensures { judged (coded result) ≡ right_answer picture.now address.0 starts.now }
{
    let slot = module_asked(picture, address)?;
    Ok(right_in(picture, slot, starts))
}

// The starts that the bytes hold, two bytes for each, low byte first, to the first entries.
fn gather(bytes: &[u8], starts: &mut [u16])
    requires { length bytes.now ≤ 2 * length starts.old }
    ensures { take (length bytes.now / 2) starts.new ≡ starts_in bytes.now }
{
    let n = bytes.len() / 2;
    for i in 0..n {
        starts[i] = number16(bytes[2 * i], bytes[2 * i + 1]);
    }
}

fn right_bytes_in(picture: &[u8], slot: u8, bytes: &[u8]) -> bool
    requires { (size ≤ length picture.now) × (slot < room) }
    ensures { result ≡ right_in_bytes (memory_in picture.now slot) bytes.now }
{
    if bytes.len() % 2 != 0 {
        return false;
    }
    let n = bytes.len() / 2;
    if MOST_STARTS < n {
        return false;
    }
    let mut starts = [0u16; MOST_STARTS];
    gather(bytes, &mut starts);
    right_in(picture, slot, &starts[..n])
}

// The same of starts handed in as bytes. An odd last byte is no start, so that such bytes are no plan.
pub fn right_plan_bytes(
    picture: &[u8],
    address: AddressAsked,
    bytes: &[u8],
) -> Result<bool, Refusal>
    ensures { judged (coded result) ≡ right_bytes_answer picture.now address.0 bytes.now }
{
    let slot = module_asked(picture, address)?;
    Ok(right_bytes_in(picture, slot, bytes))
}
