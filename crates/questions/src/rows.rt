// Questions that fill a row: which addresses are listed, and the memory of a module. A row of places is filled as numbers, or as bytes.
ghost use Rattle.std.specs.Prelude.{◌≡◌, ◌+◌, ◌*◌, ◌<◌, ◌≤◌, length, get_or};
ghost use Rattle.laws.specs.Codes.{coded};
ghost use Rattle.shape.specs.Answers.{filled};
ghost use Rattle.shape.specs.Limits.{room, addresses};
ghost use Rattle.shape.specs.Layout.{size};
ghost use Rattle.places.specs.Places.{cell_row};
ghost use Rattle.shape.specs.Head.{kind_in};
ghost use Rattle.questions.specs.Question.{memory_row, memory_bytes};
ghost use Rattle.questions.specs.Fills.{filled_to, value_at};
ghost use Rattle.questions.specs.Replies.{listed_if, listing, reply};

use crate::asking::{AddressAsked, module_asked, number_at};
use copying::copy_front;
use frame::{Address, Location};
use kinds::extent_of;
use laws::{Refusal, wide32};
use places::cell_place;
use shape::{ADDRESSES, ROOM, SIZE, kind_in, place_at, put_at, slot_of};

fn listed_if(picture: &[u8], address: Address) -> u8
    ensures { result ≡ listed_if picture.now address.0 }
{
    if slot_of(picture, address) < ROOM {
        1
    } else {
        0
    }
}

fn fill_listed(picture: &[u8], out: &mut [u8])
    ensures { out.new ≡ filled_to (listed_if picture.now) out.old addresses }
{
    for i in 0..ADDRESSES as usize {
        put_at(out, i, listed_if(picture, Address(i as u8)));
    }
}

// The listed addresses, rising, as 256 yes or no.
pub fn listed(picture: &[u8], out: &mut [u8]) -> Result<(), Refusal>
    ensures value { filled (coded result) ≡ (listing picture.now out.old).answer }
    ensures out_after { out.new ≡ (listing picture.now out.old).buffer }
{
    if picture.len() < SIZE {
        return Err(Refusal::TooShort);
    }
    if out.len() < ADDRESSES as usize {
        return Err(Refusal::TooShort);
    }
    fill_listed(picture, out);
    Ok(())
}

// n places, the first of which is at `at`, as numbers.
pub(crate) fn fill_numbers(picture: &[u8], at: usize, n: usize, out: &mut [u16])
    requires { (at + 2 * n ≤ length picture.now) × (n ≤ length out.old) }
    ensures { out.new ≡ filled_to (λ i. value_at picture.now (at + 2 * i)) out.old n }
{
    for i in 0..n {
        out[i] = number_at(picture, at + 2 * i);
    }
}

// n bytes from `at` on, to the beginning of a buffer.
fn fill_bytes(s: &[u8], at: usize, n: usize, out: &mut [u8])
    requires { (at + n ≤ length s.now) × (n ≤ length out.old) }
    ensures { out.new ≡ filled_to (λ j. get_or s.now (at + j) 0) out.old n }
{
    let end = at + n;
    copy_front(out, &s[at..end]);
}

// How many cells the module in a slot has, and where the first of them lies.
pub fn cells_in(picture: &[u8], slot: u8) -> usize
    ensures { result ≡ (cell_row (kind_in picture.now slot)).count }
{
    let e = extent_of(wide32(kind_in(picture, slot)));
    e.cells as usize
}

pub fn first_cell(picture: &[u8], slot: u8) -> u32
    ensures { result ≡ (cell_row (kind_in picture.now slot)).start }
{
    cell_place(kind_in(picture, slot), Location(0))
}

// One number for each cell: 0 to 255 as told, 256 for not heard. The entries beyond keep theirs.
pub fn memory_row(picture: &[u8], address: AddressAsked, out: &mut [u16]) -> Result<(), Refusal>
    ensures value { filled (coded result) ≡ (reply picture.now address.0 memory_row out.old).answer }
    ensures out_after { out.new ≡ (reply picture.now address.0 memory_row out.old).buffer }
{
    let slot = module_asked(picture, address)?;
    let n = cells_in(picture, slot);
    if out.len() < n {
        return Err(Refusal::TooShort);
    }
    let at = place_at(slot, first_cell(picture, slot));
    fill_numbers(picture, at, n, out);
    Ok(())
}

// The same row as bytes, two for each number, low byte first. So do a place's two bytes make its number, so that the row is a copy.
pub fn memory_bytes(picture: &[u8], address: AddressAsked, out: &mut [u8]) -> Result<(), Refusal>
    ensures value { filled (coded result) ≡ (reply picture.now address.0 memory_bytes out.old).answer }
    ensures out_after { out.new ≡ (reply picture.now address.0 memory_bytes out.old).buffer }
{
    let slot = module_asked(picture, address)?;
    let n = 2 * cells_in(picture, slot);
    if out.len() < n {
        return Err(Refusal::TooShort);
    }
    let at = place_at(slot, first_cell(picture, slot));
    fill_bytes(picture, at, n, out);
    Ok(())
}
