// A module entered, and a module exchanged. Each looks first whether there is room for it, so that it asks nothing of its caller.
ghost use Rattle.std.specs.Prelude.{◌≡◌, ◌<◌};
ghost use Rattle.laws.specs.Codes.{code_in};
ghost use Rattle.places.specs.Runs.{build_told};
ghost use Rattle.modules.specs.Records.{listed_at, enter_number, entered_in, exchanged_in};

use crate::records::new_record;
use frame::Address;
use laws::Refusal;
use places::PLACES;
use shape::{COUNT_AT, KEPT_AT, ROOM, SIZE, modules_of, put_at, slot_at};
use steering::step_on;
use stores::{DID_ENTER, lies, note};

// A module more.
fn list_at(picture: &mut [u8], slot: u8, address: Address)
    requires { slot < 255 }
    ensures { picture.new ≡ listed_at picture.old slot address.0 }
{
    put_at(picture, slot_at(address), slot);
    put_at(picture, COUNT_AT, slot + 1);
}

// A module entered, where there is room for one more: 13, 10.
pub fn enter(
    picture: &mut [u8],
    address: Address,
    kind: u8,
    year: u8,
    week: u8,
) -> Result<(), Refusal>
    ensures value { code_in result ≡ enter_number picture.old }
    ensures picture_after { picture.new ≡ entered_in picture.old address.0 kind (build_told year week) }
{
    if picture.len() < SIZE {
        return Err(Refusal::TooShort);
    }
    let slot = modules_of(picture);
    if slot >= ROOM {
        return Err(Refusal::NoRoom);
    }
    note(picture, DID_ENTER);
    new_record(picture, slot, address, kind, year, week);
    list_at(picture, slot, address);
    step_on(picture);
    Ok(())
}

// Another module in a slot: a new record, and no way back.
pub fn exchange(picture: &mut [u8], slot: u8, address: Address, kind: u8, year: u8, week: u8)
    ensures { picture.new ≡ exchanged_in picture.old slot address.0 kind (build_told year week) }
{
    if !lies(picture.len(), slot, 0, PLACES as u32) {
        return;
    }
    new_record(picture, slot, address, kind, year, week);
    put_at(picture, KEPT_AT, 0);
}
