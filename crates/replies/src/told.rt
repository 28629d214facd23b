// What a bench tells, each reply a command made of its bytes.
ghost use Rattle.std.specs.Prelude.{◌≡◌, ◌*◌};
ghost use Rattle.replies.specs.Replies.{block, name_cell, name_one, name_two, name_three, status, type_told};

use crate::cells::{KIND, VERSION_AT, cell_after, cell_at};
use crate::leds::leds_shown;
use frame::{Command, Location};
use kinds::{VMB8IR, name_of};
use laws::{byte_at, wide16};
use places::{NAME_LENGTH, WEEK, YEAR};

// The cell of a name's first character, by the channel.
pub fn name_cell(channel: u8) -> Location
    ensures { result.0 ≡ name_cell channel }
{
    let name = name_of(VMB8IR, channel);
    if name < 1 {
        return Location(0);
    }
    Location(NAME_LENGTH as u16 * wide16(name - 1))
}

pub fn block_told(bench: &[u8], l: Location) -> Command
    ensures { result ≡ block bench.now l.0 }
{
    Command::BlockTold(
        l,
        cell_at(bench, l),
        cell_after(bench, l, 1),
        cell_after(bench, l, 2),
        cell_after(bench, l, 3),
    )
}

// The block of that number, of all the cells.
pub fn dump_block(bench: &[u8], i: u8) -> Command
    ensures { result ≡ block bench.now (4 * i) }
{
    block_told(bench, Location(4 * wide16(i)))
}

pub fn name_one(bench: &[u8], n: u8, l: Location) -> Command
    ensures { result ≡ name_one bench.now n l.0 }
{
    Command::NameOne(
        n,
        cell_at(bench, l),
        cell_after(bench, l, 1),
        cell_after(bench, l, 2),
        cell_after(bench, l, 3),
        cell_after(bench, l, 4),
        cell_after(bench, l, 5),
    )
}

pub fn name_two(bench: &[u8], n: u8, l: Location) -> Command
    ensures { result ≡ name_two bench.now n l.0 }
{
    Command::NameTwo(
        n,
        cell_after(bench, l, 6),
        cell_after(bench, l, 7),
        cell_after(bench, l, 8),
        cell_after(bench, l, 9),
        cell_after(bench, l, 10),
        cell_after(bench, l, 11),
    )
}

pub fn name_three(bench: &[u8], n: u8, l: Location) -> Command
    ensures { result ≡ name_three bench.now n l.0 }
{
    Command::NameThree(
        n,
        cell_after(bench, l, 12),
        cell_after(bench, l, 13),
        cell_after(bench, l, 14),
        cell_after(bench, l, 15),
    )
}

// No channel is pressed; on is the on bit alone, very fast is both others.
pub fn status_told(bench: &[u8]) -> Command
    ensures { result ≡ status bench.now }
{
    let s = leds_shown(bench);
    Command::InputStatus(0, s.0, s.1, s.2)
}

// The serial number, the map version and the build.
pub fn type_told(bench: &[u8]) -> Command
    ensures { result ≡ type_told bench.now }
{
    Command::TypeLong(
        KIND,
        cell_at(bench, Location(0xFE)),
        cell_at(bench, Location(0xFF)),
        byte_at(bench, VERSION_AT),
        byte_at(bench, YEAR as usize),
        byte_at(bench, WEEK as usize),
    )
}
