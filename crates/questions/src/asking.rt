// What every question goes through: the slot of the address asked for, and what a place holds.
ghost use Rattle.std.specs.Prelude.{◌≡◌, ◌+◌, ◌<◌, ◌≤◌, length, IfOk, IfSome, Ok, unwrap_or};
ghost use Rattle.laws.specs.Codes.{coded};
ghost use Rattle.shape.specs.Limits.{room};
ghost use Rattle.shape.specs.Layout.{size};
ghost use Rattle.shape.specs.Head.{no_slot};
ghost use Rattle.questions.specs.Fills.{value_at};
ghost use Rattle.questions.specs.Replies.{slot_asked, module_asked, answer_at};

use frame::Address;
use laws::{Refusal, number16};
use shape::{ADDRESSES, NO_SLOT, NOT_HEARD, SIZE, listed_slot};

// What a question names may be any number. An address and a location are types of their own, so that neither stands for the other.
#[derive(Clone, Copy)]
pub struct AddressAsked(pub u32);

#[derive(Clone, Copy)]
pub struct LocationAsked(pub u32);

// The slot of the module that is listed at any number asked for: an address above 255 has none.
fn listed_asked(picture: &[u8], address: AddressAsked) -> Option<u8>
    ensures value { unwrap_or result no_slot ≡ slot_asked picture.now address.0 }
    ensures in_room { IfSome result (λ slot. slot < room) }
{
    let number = address.0;
    if number < ADDRESSES {
        listed_slot(picture, Address(number as u8))
    } else {
        None
    }
}

// The same as a number.
pub fn slot_asked(picture: &[u8], address: AddressAsked) -> u8
    ensures { result ≡ slot_asked picture.now address.0 }
{
    listed_asked(picture, address).unwrap_or(NO_SLOT)
}

// The slot of the module that is asked: a picture too short is refused, and an address where none is listed.
pub fn module_asked(picture: &[u8], address: AddressAsked) -> Result<u8, Refusal>
    ensures value { coded result ≡ module_asked picture.now address.0 }
    ensures found { IfOk result (λ slot. (size ≤ length picture.now) × (slot < room) × (slot ≡ slot_asked picture.now address.0)) }
{
    if picture.len() < SIZE {
        return Err(Refusal::TooShort);
    }
    match listed_asked(picture, address) {
        Some(slot) => Ok(slot),
        None => Err(Refusal::TypeNotKnown),
    }
}

// The two bytes of a place as one number, low byte first. The function does nothing else with them, so that it is one load.
pub(crate) fn number_at(picture: &[u8], at: usize) -> u16
    requires { at + 2 ≤ length picture.now }
    ensures { result ≡ value_at picture.now at }
{
    number16(picture[at], picture[at + 1])
}

// What a place's number says; None where it is not heard.
pub(crate) fn told_at(picture: &[u8], at: usize) -> Option<u16>
    requires { at + 2 ≤ length picture.now }
    ensures { Ok result ≡ answer_at picture.now at }
{
    let number = number_at(picture, at);
    if number == NOT_HEARD {
        None
    } else {
        Some(number)
    }
}
