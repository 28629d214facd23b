// The ring of log entries, from which a step back is undone: the bytes of eight places as they were, and where they lay.
ghost use Rattle.std.specs.Prelude.{◌≡◌, ◌<◌, ◌≤◌, length};
ghost use Rattle.shape.specs.Limits.{room, ring};
ghost use Rattle.places.specs.Places.{places};
ghost use Rattle.shape.specs.Layout.{size};
ghost use Rattle.stores.specs.Log.{lies_in, noted_at, noted_in, saved, saved_in};

use crate::bytes::{copy_sixteen, store_number};
use laws::both;
use places::PLACES;
use shape::{ROOM, SIZE, next_of, offset_at, old_at, place_at};

// An entry's offset where nothing was written, and where a module was entered.
pub const DID_NOTHING: u32 = 4294967295;

pub const DID_ENTER: u32 = 4294967294;

// Whether n places from `start` on lie in the record of a slot, in a picture of so many bytes.
pub fn lies(bytes: usize, slot: u8, start: u32, n: u32) -> bool
    ensures { result ≡ lies_in bytes slot start n }
{
    let end = start as usize + n as usize;
    both(SIZE <= bytes, both(slot < ROOM, end <= PLACES))
}

fn note_at(picture: &mut [u8], entry: u8, offset: u32)
    requires { (size ≤ length picture.old) × (entry < ring) }
    ensures { picture.new ≡ noted_at picture.old entry offset }
{
    store_number(picture, offset_at(entry), offset);
}

// That nothing was written, or that a module was entered, into the next entry.
pub fn note(picture: &mut [u8], offset: u32)
    ensures { picture.new ≡ noted_in picture.old offset }
{
    if picture.len() < SIZE {
        return;
    }
    let entry = next_of(picture);
    note_at(picture, entry, offset);
}

// Eight places as they are, into the next entry. More than a frame changes is kept, which does no harm: steps are undone latest first.
fn save_at(picture: &mut [u8], slot: u8, start: u32)
    requires { (size ≤ length picture.old) × (slot < room) × (start < places) }
    ensures { picture.new ≡ saved picture.old slot start }
{
    let entry = next_of(picture);
    let from = place_at(slot, start);
    copy_sixteen(picture, old_at(entry), from);
    note_at(picture, entry, from as u32);
}

pub fn save(picture: &mut [u8], slot: u8, start: u32)
    ensures { picture.new ≡ saved_in picture.old slot start }
{
    if !lies(picture.len(), slot, start, 1) {
        return;
    }
    save_at(picture, slot, start);
}
