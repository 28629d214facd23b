// Where each part of a picture lies in the lent bytes. Each number is made of those before it.
ghost use Rattle.std.specs.Prelude.{◌≡◌};
ghost use Rattle.shape.specs.Layout.{slot_at, record_at, kind_at, place_at, old_at, offset_at};

use frame::Address;
use places::PLACES;

// The most modules, the greatest depth of a way back, and the entries of the log's ring, which are no fewer.
pub const ROOM: u8 = 16;

pub const MOST_DEPTH: u8 = 64;

pub const RING: u8 = 64;

// The number of addresses, and the most places that a frame speaks of.
pub const ADDRESSES: u32 = 256;

const MOST_PLACES: usize = 8;

// The head: number of modules, count kept, the ring's next entry, the way back's depth.
pub const COUNT_AT: usize = 0;

pub const KEPT_AT: usize = 1;

pub const NEXT_AT: usize = 2;

pub const DEPTH_AT: usize = 3;

pub const HEAD_SIZE: usize = 16;

// The records, after the head and the table of slots: address, type, and two bytes of each place; then as many unused places as a frame
// speaks of, so that a run of eight from any place lies in the record.
const RECORDS_AT: usize = HEAD_SIZE + ADDRESSES as usize;

const RECORD_HEAD: usize = 2;

const RECORD_SIZE: usize = RECORD_HEAD + 2 * (PLACES + MOST_PLACES);

// The ring of log entries: the bytes of eight places, and the offset where they lay.
pub const RING_AT: usize = RECORDS_AT + RECORD_SIZE * (ROOM as usize);

pub const OLD_SIZE: usize = 2 * MOST_PLACES;

const ENTRY_SIZE: usize = 32;

// The whole.
pub const SIZE: usize = RING_AT + ENTRY_SIZE * (RING as usize);

// The table's byte of an address.
pub fn slot_at(address: Address) -> usize
    ensures { result ≡ slot_at address.0 }
{
    HEAD_SIZE + address.0 as usize
}

pub fn record_at(slot: u8) -> usize
    ensures { result ≡ record_at slot }
{
    RECORDS_AT + RECORD_SIZE * (slot as usize)
}

pub fn kind_at(slot: u8) -> usize
    ensures { result ≡ kind_at slot }
{
    record_at(slot) + 1
}

pub fn place_at(slot: u8, place: u32) -> usize
    ensures { result ≡ place_at slot place }
{
    record_at(slot) + RECORD_HEAD + 2 * (place as usize)
}

// The bytes that a log entry keeps, and the number that says where they lay.
pub fn old_at(entry: u8) -> usize
    ensures { result ≡ old_at entry }
{
    RING_AT + ENTRY_SIZE * (entry as usize)
}

pub fn offset_at(entry: u8) -> usize
    ensures { result ≡ offset_at entry }
{
    old_at(entry) + OLD_SIZE
}
