// Bytes of a picture, read and stored.
ghost use Rattle.std.specs.Prelude.{◌≡◌, ◌+◌, ◌-◌, ◌≤◌, [], ◌∷◌, length, slice_index};
ghost use Rattle.laws.specs.Tab.{tab};
ghost use Rattle.places.specs.Places.{year_place};
ghost use Rattle.places.specs.Runs.{tells};
ghost use Rattle.shape.specs.Layout.{place_at};
ghost use Rattle.stores.specs.Stores.{pair, written, stored, stored_in, copied};
ghost use Rattle.stores.specs.Log.{number_bytes, number_at};

use laws::number32;
use places::YEAR;
use shape::{place_at, put_at};

// The two bytes of a place: its value and 0, or 0 and 1 where it is not heard.
pub fn put_pair(s: &mut [u8], at: usize, low: u8, high: u8)
    ensures { s.new ≡ pair s.old at low high }
{
    put_at(s, at, low);
    if at < s.len() {
        put_at(s, at + 1, high);
    }
}

// The build, written into the record of a slot.
pub fn put_build(picture: &mut [u8], slot: u8, year: u8, week: u8)
    ensures { picture.new ≡ written picture.old (place_at slot year_place) (tells year ∷ tells week ∷ []) }
{
    let at = place_at(slot, YEAR);
    put_pair(picture, at, year, 0);
    put_pair(picture, at + 2, week, 0);
}

// Eight bytes, loaded before one is stored, so that they are one load and one store.
fn row_at(s: &[u8], at: usize) -> [u8; 8]
    requires { at + 8 ≤ length s.now }
    ensures { result ≡ tab 8 (λ j. slice_index s.now (at + j)) }
{
    [
        s[at],
        s[at + 1],
        s[at + 2],
        s[at + 3],
        s[at + 4],
        s[at + 5],
        s[at + 6],
        s[at + 7],
    ]
}

fn store_row(s: &mut [u8], at: usize, row: [u8; 8])
    requires { at + 8 ≤ length s.old }
    ensures { s.new ≡ stored s.old at row 8 }
{
    s[at] = row[0];
    s[at + 1] = row[1];
    s[at + 2] = row[2];
    s[at + 3] = row[3];
    s[at + 4] = row[4];
    s[at + 5] = row[5];
    s[at + 6] = row[6];
    s[at + 7] = row[7];
}

// Eight bytes, where they have room.
pub fn put_row(s: &mut [u8], at: usize, row: [u8; 8])
    ensures { s.new ≡ stored_in s.old at row }
{
    if s.len() < 8 {
        return;
    }
    if s.len() - 8 < at {
        return;
    }
    store_row(s, at, row);
}

// The bytes of eight places, copied at least so far on or back.
pub(crate) fn copy_sixteen(s: &mut [u8], to: usize, from: usize)
    requires { (16 ≤ (to - from) + (from - to)) × (from + 16 ≤ length s.old) × (to + 16 ≤ length s.old) }
    ensures { s.new ≡ copied s.old to from 16 }
{
    let first = row_at(s, from);
    let second = row_at(s, from + 8);
    store_row(s, to, first);
    store_row(s, to + 8, second);
}

// A number in four bytes, low byte first.
pub(crate) fn store_number(s: &mut [u8], at: usize, n: u32)
    requires { at + 4 ≤ length s.old }
    ensures { s.new ≡ stored s.old at (number_bytes n) 4 }
{
    s[at] = (n % 256) as u8;
    s[at + 1] = (n / 256 % 256) as u8;
    s[at + 2] = (n / 65536 % 256) as u8;
    s[at + 3] = (n / 16777216 % 256) as u8;
}

pub(crate) fn number_at(s: &[u8], at: usize) -> u32
    requires { at + 4 ≤ length s.now }
    ensures { result ≡ number_at s.now at }
{
    number32(s[at], s[at + 1], s[at + 2], s[at + 3])
}
