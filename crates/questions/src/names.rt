// The question on a name of a module: its sixteen characters as a row of numbers, or the same row as bytes, and how many of them are heard.
ghost use Rattle.std.specs.Prelude.{◌≡◌, cond, ◌+◌, ◌*◌, ◌<◌, ◌≤◌, length, IfOk, Ok, Err};
ghost use Rattle.laws.specs.Codes.{coded};
ghost use Rattle.laws.specs.Refusals.{no_such_place};
ghost use Rattle.shape.specs.Answers.{valued};
ghost use Rattle.shape.specs.Limits.{room};
ghost use Rattle.shape.specs.Layout.{size, place_at};
ghost use Rattle.places.specs.Places.{name_length, has_name, row_of_name};
ghost use Rattle.shape.specs.Head.{kind_in};
ghost use Rattle.questions.specs.Question.{name_row, name_bytes};
ghost use Rattle.questions.specs.Fills.{heard_at, sum_to};
ghost use Rattle.questions.specs.Replies.{reply};

use crate::asking::{AddressAsked, module_asked, number_at};
use crate::rows::fill_numbers;
use copying::copy_few;
use laws::Refusal;
use places::{character_place, has_name};
use shape::{NOT_HEARD, kind_in, place_at};

// How many characters a name has.
const NAME_LENGTH: usize = places::NAME_LENGTH as usize;

// 1 for a place that is told, else 0. The place is read as one number, so that the compiler counts several places at once.
fn heard_at(picture: &[u8], at: usize) -> u16
    requires { at + 2 ≤ length picture.now }
    ensures { (result ≡ heard_at picture.now at) × (result ≤ 1) }
{
    let number = number_at(picture, at);
    if number < NOT_HEARD { 1 } else { 0 }
}

// How many of sixteen places, the first of which is at `at`, are told.
fn heard_from(picture: &[u8], at: usize) -> u16
    requires { at + 2 * name_length ≤ length picture.now }
    ensures { result ≡ sum_to (λ i. heard_at picture.now (at + 2 * i)) name_length }
{
    let mut count: u16 = 0;
    for i in 0..NAME_LENGTH {
        count += heard_at(picture, at + 2 * i);
    }
    count
}

// Where the first character of a name lies, if the module in the slot has that name.
fn name_at(picture: &[u8], slot: u8, name: u32) -> Result<usize, Refusal>
    requires { (size ≤ length picture.now) × (slot < room) }
    ensures value { coded result ≡ cond (has_name (kind_in picture.now slot) name) (Ok (place_at slot (row_of_name (kind_in picture.now slot) name).start)) (Err no_such_place) }
    ensures inside { IfOk result (λ at. at + 2 * name_length ≤ length picture.now) }
{
    let kind = kind_in(picture, slot);
    if has_name(kind, name) {
        Ok(place_at(slot, character_place(kind, name as u8, 1)))
    } else {
        Err(Refusal::NoSuchPlace)
    }
}

// One number for each of the sixteen characters, 0 to 255 as told, 256 for not heard, and how many are heard. The entries beyond keep theirs.
pub fn name(
    picture: &[u8],
    address: AddressAsked,
    name: u32,
    row: &mut [u16],
) -> Result<u16, Refusal>
    ensures value { valued (coded result) ≡ (reply picture.now address.0 (name_row name) row.old).answer }
    ensures row_after { row.new ≡ (reply picture.now address.0 (name_row name) row.old).buffer }
{
    let slot = module_asked(picture, address)?;
    let at = name_at(picture, slot, name)?;
    let n = NAME_LENGTH;
    if row.len() < n {
        return Err(Refusal::TooShort);
    }
    fill_numbers(picture, at, n, row);
    Ok(heard_from(picture, at))
}

// The same row as bytes, two for each number, low byte first.
pub fn name_bytes(
    picture: &[u8],
    address: AddressAsked,
    name: u32,
    out: &mut [u8],
) -> Result<u16, Refusal>
    ensures value { valued (coded result) ≡ (reply picture.now address.0 (name_bytes name) out.old).answer }
    ensures out_after { out.new ≡ (reply picture.now address.0 (name_bytes name) out.old).buffer }
{
    let slot = module_asked(picture, address)?;
    let at = name_at(picture, slot, name)?;
    let n = 2 * NAME_LENGTH;
    if out.len() < n {
        return Err(Refusal::TooShort);
    }
    let end = at + n;
    copy_few(out, &picture[at..end]);
    Ok(heard_from(picture, at))
}
