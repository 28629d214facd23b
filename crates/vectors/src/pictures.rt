// What the picture makes of modules that enter, and what it answers.
use crate::answers::{Answer, Words, answer};
use crate::words::Reader;
use kinds::{VMB1BL, VMB2BL, VMB8IR};
use laws::Refusal;
use questions::{AddressAsked, LocationAsked};

// The type frame of a module; no data for a type of which no module enters.
fn type_frame(kind: u32) -> &'static [u8] {
    match kind {
        VMB8IR => &[0xFF, 0x0A, 0x12, 0x34, 0x01, 0x0C, 0x05],
        VMB1BL => &[0xFF, 0x03, 0x02, 0x08, 0x0F],
        VMB2BL => &[0xFF, 0x09, 0x0F, 0x08, 0x0F],
        _ => &[],
    }
}

fn enter(picture: &mut [u8], kind: u32, identifier: u32) -> Result<(), Refusal> {
    picture::hear(picture, identifier, 0, type_frame(kind))
}

// A fresh picture, in which two modules enter, the second also where the first is refused.
pub(crate) fn fresh_with(r: Reader, picture: &mut [u8]) -> Result<(), Refusal> {
    picture::fresh(picture)?;
    let first = enter(picture, r.a, r.b);
    let second = enter(picture, r.c, r.d);
    first.and(second)
}

// The questions whose answer is a number, by their letters.
fn number(picture: &[u8], letter: u8, at: u32, number: u32) -> Answer {
    match letter {
        b'K' => questions::kept(picture).map(Some),
        b'T' => questions::type_of(picture, AddressAsked(at)).map(Some),
        b'Y' => questions::build_year(picture, AddressAsked(at)),
        b'V' => questions::build_week(picture, AddressAsked(at)),
        b'C' => questions::cell(picture, AddressAsked(at), LocationAsked(number)),
        b'L' => questions::led(picture, AddressAsked(at), number),
        _ => questions::blind(picture, AddressAsked(at), number),
    }
}

pub(crate) fn asked(letter: u8, r: Reader, picture: &[u8]) -> Words {
    answer(letter, number(picture, letter, r.a, r.b))
}
