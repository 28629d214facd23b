// The commands on names.
ghost use Rattle.std.specs.Prelude.{◌≡◌, ◌+◌, ◌≤◌};
ghost use Rattle.laws.specs.Codes.{code_in};
ghost use Rattle.frame.specs.Bytes.{byte};
ghost use Rattle.commands.specs.Arms.{Ready, Heard};

use crate::forms::{character_in, formed};
use changes::{pass, tell_four, tell_six};
use fields::{channel_fault, last_part_fault, name_asked_fault};
use frame::LOW;
use laws::{Refusal, byte_at, wide32};

// The first and the second part of a name, of six characters each: parts 0 and 1.
pub(crate) fn six_told(
    picture: &mut [u8],
    slot: u8,
    kind: u8,
    part: u8,
    priority: u32,
    data: &[u8],
) -> Result<(), Refusal>
    requires { Ready picture.old slot kind × (part ≤ 1) × (byte 1 «data».now ≡ 0xF0 + part) }
    ensures { Heard picture.old slot kind priority «data».now (code_in result) picture.new }
{
    formed(priority, LOW, data, 8)?;
    channel_fault(wide32(kind), byte_at(data, 1))?;
    tell_six(
        picture,
        slot,
        character_in(kind, data, 1 + 6 * part),
        byte_at(data, 2),
        byte_at(data, 3),
        byte_at(data, 4),
        byte_at(data, 5),
        byte_at(data, 6),
        byte_at(data, 7),
    );
    Ok(())
}

// The last part.
pub(crate) fn last_told(
    picture: &mut [u8],
    slot: u8,
    kind: u8,
    priority: u32,
    data: &[u8],
) -> Result<(), Refusal>
    requires { Ready picture.old slot kind × (byte 1 «data».now ≡ 0xF2) }
    ensures { Heard picture.old slot kind priority «data».now (code_in result) picture.new }
{
    formed(priority, LOW, data, 6)?;
    last_part_fault(wide32(kind), byte_at(data, 1), byte_at(data, 5))?;
    tell_four(
        picture,
        slot,
        character_in(kind, data, 13),
        byte_at(data, 2),
        byte_at(data, 3),
        byte_at(data, 4),
        byte_at(data, 5),
    );
    Ok(())
}

// Names asked for.
pub(crate) fn name_asked(
    picture: &mut [u8],
    slot: u8,
    kind: u8,
    priority: u32,
    data: &[u8],
) -> Result<(), Refusal>
    requires { Ready picture.old slot kind × (byte 1 «data».now ≡ 0xEF) }
    ensures { Heard picture.old slot kind priority «data».now (code_in result) picture.new }
{
    formed(priority, LOW, data, 2)?;
    name_asked_fault(wide32(kind), byte_at(data, 1))?;
    pass(picture);
    Ok(())
}
