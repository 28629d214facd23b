// The places of a module, one map for every type: build year, build week, LEDs, blinds, characters of names, cells. Where a type's names live in
// its memory, a character and its cell are one place.
ghost use Rattle.std.specs.Prelude.{◌≡◌, cond, ◌+◌, ◌-◌, ◌<◌, ◌≤◌, ltb, unwrap_or, IfSome};
ghost use Rattle.kinds.specs.Types.{extent_of};
ghost use Rattle.places.specs.Places.{places, led_asked, blind_asked, has_name, within, nowhere, first_character, character_place, cell_place};

use frame::Location;
use kinds::{VMB1BL, VMB2BL, VMB8IR, extent_of, names_in_memory};
use laws::{both, wide32};

// How many places there are.
pub const PLACES: usize = 512;

// The first place of each kind.
pub const YEAR: u32 = 0;

pub const WEEK: u32 = 1;

pub const LEDS: u32 = 2;

pub const BLINDS: u32 = 10;

const NAMES: u32 = 16;

const CELLS: u32 = 256;

// How many characters a name has.
pub const NAME_LENGTH: u32 = 16;

// Whether n counts from 1 to most.
fn within(n: u32, most: u32) -> bool
    ensures { result ≡ within n most }
{
    both(1 <= n, n <= most)
}

pub fn has_name(kind: u8, name: u32) -> bool
    ensures { result ≡ has_name kind name }
{
    let e = extent_of(wide32(kind));
    within(name, e.names)
}

// What is counted from 1, counted from 0.
fn from_zero(n: u8) -> u32
    ensures { result ≡ n - 1 }
{
    if n < 1 { 0 } else { wide32(n - 1) }
}

// Where the first character of the first name lies.
fn first_character(kind: u8) -> u32
    ensures { (result ≡ first_character kind) × (result ≤ 256) }
{
    let memory = names_in_memory(wide32(kind));
    if memory { CELLS } else { NAMES }
}

// Where character i of a name lies; names and characters count from 1.
pub fn character_place(kind: u8, name: u8, i: u8) -> u32
    ensures { result ≡ character_place kind name i }
{
    first_character(kind) + NAME_LENGTH * from_zero(name) + from_zero(i)
}

pub fn cell_place(kind: u8, location: Location) -> u32
    ensures { result ≡ cell_place kind location.0 }
{
    CELLS + location.0 as u32
}

// How many cells the types have, all but one and that one.
const MOST_CELLS: u32 = 256;

const FEWER_CELLS: u32 = 128;

// Whether a type has a cell at a location. Each type's count is compared where the type is known: it costs less than a count that is chosen first.
pub fn has_cell(kind: u8, location: u32) -> bool
    ensures { result ≡ ltb location (extent_of kind).cells }
{
    let number = wide32(kind);
    if number == VMB1BL {
        return location < FEWER_CELLS;
    }
    if number == VMB2BL {
        return location < MOST_CELLS;
    }
    if number == VMB8IR {
        return location < MOST_CELLS;
    }
    false
}

// The place that is asked for, of places that are counted from 1.
fn numbered(first: u32, n: u32, most: u32) -> Option<u32>
    requires { first + most ≤ places }
    ensures value { unwrap_or result nowhere ≡ cond (within n most) (first + (n - 1)) nowhere }
    ensures inside { IfSome result (λ place. place < places) }
{
    if within(n, most) {
        Some(first + (n - 1))
    } else {
        None
    }
}

// None where the type has no such LED, or no such blind.
pub fn led_asked(kind: u8, number: u32) -> Option<u32>
    ensures value { unwrap_or result nowhere ≡ led_asked kind number }
    ensures inside { IfSome result (λ place. place < places) }
{
    let e = extent_of(wide32(kind));
    numbered(LEDS, number, e.leds)
}

pub fn blind_asked(kind: u8, number: u32) -> Option<u32>
    ensures value { unwrap_or result nowhere ≡ blind_asked kind number }
    ensures inside { IfSome result (λ place. place < places) }
{
    let e = extent_of(wide32(kind));
    numbered(BLINDS, number, e.blinds)
}
