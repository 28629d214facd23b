// The commands that name no place of the picture's: buttons, states asked for, errors, a memory asked for.
ghost use Rattle.std.specs.Prelude.{◌≡◌};
ghost use Rattle.laws.specs.Codes.{code_in};
ghost use Rattle.frame.specs.Bytes.{byte};
ghost use Rattle.commands.specs.Arms.{Ready, Heard, Free};

use crate::forms::formed;
use changes::pass;
use fields::{buttons_fault, status_asked_fault};
use frame::{HIGH, LOW};
use laws::{Refusal, byte_at, wide32};

// Buttons pressed.
pub(crate) fn buttons_told(
    picture: &mut [u8],
    slot: u8,
    kind: u8,
    priority: u32,
    data: &[u8],
) -> Result<(), Refusal>
    requires { Ready picture.old slot kind × (byte 1 «data».now ≡ 0x00) }
    ensures { Heard picture.old slot kind priority «data».now (code_in result) picture.new }
{
    formed(priority, HIGH, data, 4)?;
    buttons_fault(
        wide32(kind),
        byte_at(data, 1),
        byte_at(data, 2),
        byte_at(data, 3),
    )?;
    pass(picture);
    Ok(())
}

// A state asked for.
pub(crate) fn status_asked(
    picture: &mut [u8],
    slot: u8,
    kind: u8,
    priority: u32,
    data: &[u8],
) -> Result<(), Refusal>
    requires { Ready picture.old slot kind × (byte 1 «data».now ≡ 0xFA) }
    ensures { Heard picture.old slot kind priority «data».now (code_in result) picture.new }
{
    formed(priority, LOW, data, 2)?;
    status_asked_fault(wide32(kind), byte_at(data, 1))?;
    pass(picture);
    Ok(())
}

// A command all of whose bytes are free.
pub(crate) fn free_heard(
    picture: &mut [u8],
    slot: u8,
    kind: u8,
    priority: u32,
    data: &[u8],
    count: usize,
) -> Result<(), Refusal>
    requires { Ready picture.old slot kind × Free (byte 1 «data».now) count }
    ensures { Heard picture.old slot kind priority «data».now (code_in result) picture.new }
{
    formed(priority, LOW, data, count)?;
    pass(picture);
    Ok(())
}
