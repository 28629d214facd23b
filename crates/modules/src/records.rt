// A new module's record: every place unknown, then the build.
ghost use Rattle.std.specs.Prelude.{◌≡◌, replicate};
ghost use Rattle.places.specs.Places.{places};
ghost use Rattle.places.specs.Runs.{build_told};
ghost use Rattle.shape.specs.Layout.{place_at};
ghost use Rattle.stores.specs.Stores.{blanked};
ghost use Rattle.modules.specs.Records.{blank_record, new_record};

use frame::Address;
use shape::{kind_at, place_at, put_at, record_at};
use stores::{put_build, put_pair};

const HALF: u32 = 256;

// A half of a record's places: their values, and for each 1 where it is not heard.
#[derive(Clone, Copy)]
struct Half {
    values: [u8; 256],
    unheard: [u8; 256],
}

fn unknown() -> Half
    ensures { (result.values ≡ replicate 256 0) × (result.unheard ≡ replicate 256 1) }
{
    Half {
        values: [0u8; 256],
        unheard: [1u8; 256],
    }
}

// A half in which nothing is told, laid into a record from the place `start` on.
fn lay_half(picture: &mut [u8], slot: u8, start: u32, values: &[u8], unheard: &[u8])
    requires { (values.now ≡ replicate 256 0) × (unheard.now ≡ replicate 256 1) }
    ensures { picture.new ≡ blanked picture.old (place_at slot start) 256 }
{
    let at = place_at(slot, start);
    for i in 0..256 {
        put_pair(picture, at + 2 * i, values[i], unheard[i]);
    }
}

fn lay_record(picture: &mut [u8], slot: u8)
    ensures { picture.new ≡ blanked picture.old (place_at slot 0) places }
{
    let half = unknown();
    let values = half.values;
    let unheard = half.unheard;
    lay_half(picture, slot, 0, &values, &unheard);
    lay_half(picture, slot, HALF, &values, &unheard);
}

fn blank_record(picture: &mut [u8], slot: u8, address: Address, kind: u8)
    ensures { picture.new ≡ blank_record picture.old slot address.0 kind }
{
    put_at(picture, record_at(slot), address.0);
    put_at(picture, kind_at(slot), kind);
    lay_record(picture, slot);
}

// A new record in a slot.
pub(crate) fn new_record(
    picture: &mut [u8],
    slot: u8,
    address: Address,
    kind: u8,
    year: u8,
    week: u8,
)
    ensures { picture.new ≡ new_record picture.old slot address.0 kind (build_told year week) }
{
    blank_record(picture, slot, address, kind);
    put_build(picture, slot, year, week);
}
