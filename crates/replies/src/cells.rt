// The bytes of a bench: one for each place, then its address and its map version.
ghost use Rattle.std.specs.Prelude.{◌≡◌, ◌+◌, ◌≤◌};
ghost use Rattle.replies.specs.Bench.{cell};

use frame::Location;
use kinds::VMB8IR;
use laws::byte_at;
use places::{PLACES, cell_place};

pub const KIND: u8 = VMB8IR as u8;

pub const ADDRESS_AT: usize = PLACES;

pub const VERSION_AT: usize = PLACES + 1;

// A cell so many after a location.
pub(crate) fn cell_after(bench: &[u8], l: Location, more: u32) -> u8
    requires { more ≤ 15 }
    ensures { result ≡ cell bench.now (l.0 + more) }
{
    let p = cell_place(KIND, l) + more;
    byte_at(bench, p as usize)
}

pub fn cell_at(bench: &[u8], l: Location) -> u8
    ensures { result ≡ cell bench.now l.0 }
{
    let p = cell_place(KIND, l);
    byte_at(bench, p as usize)
}
