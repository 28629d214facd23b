// Questions whose answer is a number.
ghost use Rattle.std.specs.Prelude.{◌≡◌, [], ◌<◌, ◌≤◌, length, unwrap_or, IfSome};
ghost use Rattle.laws.specs.Codes.{coded};
ghost use Rattle.shape.specs.Answers.{valued};
ghost use Rattle.shape.specs.Limits.{room};
ghost use Rattle.shape.specs.Layout.{size};
ghost use Rattle.places.specs.Places.{places, nowhere};
ghost use Rattle.questions.specs.Question.{type_of, build_year, build_week, cell, led, blind};
ghost use Rattle.questions.specs.Replies.{kept_answer, place_reply, reply};

use crate::asking::{AddressAsked, LocationAsked, module_asked, told_at};
use crate::rows::first_cell;
use laws::{Refusal, wide16};
use places::{WEEK, YEAR, blind_asked, has_cell, led_asked};
use shape::{SIZE, kept_of, kind_in, place_at};

// The count kept.
pub fn kept(picture: &[u8]) -> Result<u16, Refusal>
    ensures { valued (coded result) ≡ kept_answer picture.now }
{
    if picture.len() < SIZE {
        return Err(Refusal::TooShort);
    }
    Ok(wide16(kept_of(picture)))
}

pub fn type_of(picture: &[u8], address: AddressAsked) -> Result<u16, Refusal>
    ensures { valued (coded result) ≡ (reply picture.now address.0 type_of []).answer }
{
    let slot = module_asked(picture, address)?;
    Ok(wide16(kind_in(picture, slot)))
}

// A place of the module in a slot, where its type has the place.
fn place_in(picture: &[u8], slot: u8, place: Option<u32>) -> Result<Option<u16>, Refusal>
    requires { (size ≤ length picture.now) × (slot < room) × IfSome place (λ place. place < places) }
    ensures { coded result ≡ (place_reply picture.now slot (unwrap_or place nowhere) []).answer }
{
    match place {
        Some(place) => Ok(told_at(picture, place_at(slot, place))),
        None => Err(Refusal::NoSuchPlace),
    }
}

pub fn build_year(picture: &[u8], address: AddressAsked) -> Result<Option<u16>, Refusal>
    ensures { coded result ≡ (reply picture.now address.0 build_year []).answer }
{
    let slot = module_asked(picture, address)?;
    place_in(picture, slot, Some(YEAR))
}

pub fn build_week(picture: &[u8], address: AddressAsked) -> Result<Option<u16>, Refusal>
    ensures { coded result ≡ (reply picture.now address.0 build_week []).answer }
{
    let slot = module_asked(picture, address)?;
    place_in(picture, slot, Some(WEEK))
}

// Every cell is a place, so that no place is tested.
pub fn cell(
    picture: &[u8],
    address: AddressAsked,
    location: LocationAsked,
) -> Result<Option<u16>, Refusal>
    ensures { coded result ≡ (reply picture.now address.0 (cell location.0) []).answer }
{
    let slot = module_asked(picture, address)?;
    if has_cell(kind_in(picture, slot), location.0) {
        let place = first_cell(picture, slot) + location.0;
        Ok(told_at(picture, place_at(slot, place)))
    } else {
        Err(Refusal::NoSuchPlace)
    }
}

// LEDs count from 1.
pub fn led(picture: &[u8], address: AddressAsked, number: u32) -> Result<Option<u16>, Refusal>
    ensures { coded result ≡ (reply picture.now address.0 (led number) []).answer }
{
    let slot = module_asked(picture, address)?;
    place_in(picture, slot, led_asked(kind_in(picture, slot), number))
}

// So do blinds.
pub fn blind(picture: &[u8], address: AddressAsked, number: u32) -> Result<Option<u16>, Refusal>
    ensures { coded result ≡ (reply picture.now address.0 (blind number) []).answer }
{
    let slot = module_asked(picture, address)?;
    place_in(picture, slot, blind_asked(kind_in(picture, slot), number))
}
