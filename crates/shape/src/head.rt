// What steers: how many modules there are, how many steps are kept and may be, the ring's next entry, the slot and the type of an address.
// Each byte that steers an index is guarded where it is read, so that any bytes at all are safe.
ghost use Rattle.std.specs.Prelude.{◌≡◌, ◌<◌, ltb, IfSome, unwrap_or};
ghost use Rattle.shape.specs.Limits.{room};
ghost use Rattle.shape.specs.Head.{modules_of, kept_of, next_of, depth_of, no_slot, believed, slot_of, kind_in};

use crate::layout::{
    COUNT_AT, DEPTH_AT, KEPT_AT, NEXT_AT, RING, ROOM, kind_at, record_at, slot_at,
};
use frame::Address;
use laws::byte_at;

// The slot of no module, and the type of no module.
pub const NO_SLOT: u8 = ROOM;

const NO_TYPE: u8 = kinds::NO_TYPE as u8;

pub fn modules_of(picture: &[u8]) -> u8
    ensures { result ≡ modules_of picture.now }
{
    let n = byte_at(picture, COUNT_AT);
    if n < ROOM { n } else { ROOM }
}

pub fn kept_of(picture: &[u8]) -> u8
    ensures { result ≡ kept_of picture.now }
{
    byte_at(picture, KEPT_AT)
}

// The most steps that this picture keeps.
pub fn depth_of(picture: &[u8]) -> u8
    ensures { result ≡ depth_of picture.now }
{
    byte_at(picture, DEPTH_AT)
}

pub fn next_of(picture: &[u8]) -> u8
    ensures { result ≡ next_of picture.now }
{
    byte_at(picture, NEXT_AT) % RING
}

// Whether a slot is a module's. The room is tested on its own, so that a byte of a listed slot needs no guard.
fn is_listed(picture: &[u8], slot: u8) -> bool
    ensures { result ≡ ltb slot (modules_of picture.now) }
{
    if slot < ROOM {
        slot < byte_at(picture, COUNT_AT)
    } else {
        false
    }
}

// What the table says is believed where it is a module's slot and that module has the address.
fn believed(picture: &[u8], address: Address, slot: u8) -> bool
    ensures { result ≡ believed picture.now address.0 slot }
{
    if is_listed(picture, slot) {
        byte_at(picture, record_at(slot)) == address.0
    } else {
        false
    }
}

// The slot of the module that is listed at an address. An Option: a number for no slot would be chosen here, and tested once more by a caller.
pub fn listed_slot(picture: &[u8], address: Address) -> Option<u8>
    ensures value { unwrap_or result no_slot ≡ slot_of picture.now address.0 }
    ensures in_room { IfSome result (λ slot. slot < room) }
{
    let slot = byte_at(picture, slot_at(address));
    if believed(picture, address, slot) {
        Some(slot)
    } else {
        None
    }
}

// The same as a number.
pub fn slot_of(picture: &[u8], address: Address) -> u8
    ensures { result ≡ slot_of picture.now address.0 }
{
    listed_slot(picture, address).unwrap_or(NO_SLOT)
}

pub fn kind_in(picture: &[u8], slot: u8) -> u8
    ensures { result ≡ kind_in picture.now slot }
{
    if slot < ROOM {
        byte_at(picture, kind_at(slot))
    } else {
        NO_TYPE
    }
}
