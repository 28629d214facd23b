// The form of a frame, and what its first bytes name. Each arm tests its own row, which is written there as numbers.
ghost use Rattle.std.specs.Prelude.{◌≡◌, true, ◌&&◌, length, ◌==◌};
ghost use Rattle.laws.specs.Codes.{code_in};
ghost use Rattle.laws.specs.Refusals.{wrong_length, wrong_priority};
ghost use Rattle.laws.specs.Tests.{among, unless};
ghost use Rattle.kinds.specs.Types.{module_types, last_cell, last_start, name_of};
ghost use Rattle.frame.specs.Bytes.{byte};
ghost use Rattle.frame.specs.Messages.{location_in};
ghost use Rattle.places.specs.Places.{character_place};

use frame::{Location, location_of};
use kinds::{VMB1BL, name_of};
use laws::{Refusal, both, byte_at, wide32};
use places::character_place;

// So many bytes, at the priority that is the row's own: one test where both are.
pub(crate) fn formed(priority: u32, own: u32, data: &[u8], count: usize) -> Result<(), Refusal>
    ensures { code_in result ≡ unless (length «data».now == count) wrong_length (unless (priority == own) wrong_priority 0) }
{
    if both(data.len() == count, priority == own) {
        return Ok(());
    }
    if data.len() == count {
        Err(Refusal::WrongPriority)
    } else {
        Err(Refusal::WrongLength)
    }
}

pub(crate) fn location_in(data: &[u8]) -> Location
    ensures { result ≡ location_in «data».now }
{
    location_of(byte_at(data, 1), byte_at(data, 2))
}

// The last cell of a module, and the last that a block of four can start at: a choice of two numbers, where the table has a search.
pub(crate) fn last_of(kind: u8) -> u32
    requires { among kind module_types ≡ true }
    ensures { result ≡ last_cell kind }
{
    if wide32(kind) == VMB1BL { 127 } else { 255 }
}

pub(crate) fn last_start_of(kind: u8) -> u32
    requires { among kind module_types ≡ true }
    ensures { result ≡ last_start kind }
{
    if wide32(kind) == VMB1BL { 124 } else { 252 }
}

// The place of character i of the name that byte 2 of a frame names.
pub(crate) fn character_in(kind: u8, data: &[u8], i: u8) -> u32
    ensures { result ≡ character_place kind (name_of kind (byte 2 «data».now)) i }
{
    let name = name_of(wide32(kind), byte_at(data, 1));
    character_place(kind, name, i)
}
