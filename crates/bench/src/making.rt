// A new bench.
ghost use Rattle.std.specs.Prelude.{◌≡◌, ◌≤◌, length};
ghost use Rattle.laws.specs.Codes.{coded};
ghost use Rattle.std.proofs.lemmas.List.Edits.{sets};
ghost use Rattle.replies.specs.Bench.{bench_size};
ghost use Rattle.bench.specs.Making.{named_cells, new_bench, making};

use crate::bytes::put_bytes;
use frame::Location;
use laws::Refusal;
use places::{PLACES, WEEK, YEAR, cell_place};
use replies::{ADDRESS_AT, KIND, VERSION_AT};
use shape::{ADDRESSES, put_at};

pub const SIZE: usize = PLACES + 2;

// How many cells are named at the start.
const NAMED_CELLS: usize = 256;

// 9 with byte 1, for address 0: no later byte could repair a type frame from there.
const NO_ADDRESS: Refusal = Refusal::BadField(1);

pub fn bench_size() -> u32
    ensures { result ≡ bench_size }
{
    SIZE as u32
}

fn lay(bench: &mut [u8], address: u8, cells: &[u8], version: u8, year: u8, week: u8)
    requires { (bench_size ≤ length bench.old) × (named_cells ≤ length cells.now) }
    ensures { bench.new ≡ sets bench.old 0 (new_bench address cells.now version year week) }
{
    let blank = [0u8; SIZE];
    put_bytes(bench, 0, &blank);
    put_bytes(bench, cell_place(KIND, Location(0)), &cells[..NAMED_CELLS]);
    put_at(bench, YEAR as usize, year);
    put_at(bench, WEEK as usize, week);
    put_at(bench, ADDRESS_AT, address);
    put_at(bench, VERSION_AT, version);
}

// Makes a bench in the lent bytes: its address, its 256 cells, its map version and its build; its LEDs are off. A refused one changes nothing.
pub fn bench_new(
    bench: &mut [u8],
    address: u32,
    cells: &[u8],
    version: u8,
    year: u8,
    week: u8,
) -> Result<(), Refusal>
    ensures value { coded result ≡ (making bench.old address cells.now version year week).outcome }
    ensures bench_after { bench.new ≡ (making bench.old address cells.now version year week).buffer }
{
    if bench.len() < SIZE {
        return Err(Refusal::TooShort);
    }
    if cells.len() < NAMED_CELLS {
        return Err(Refusal::TooShort);
    }
    if address >= ADDRESSES {
        return Err(Refusal::TypeNotKnown);
    }
    if address == 0 {
        return Err(NO_ADDRESS);
    }
    lay(bench, address as u8, cells, version, year, week);
    Ok(())
}
