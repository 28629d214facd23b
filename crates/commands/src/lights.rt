// The commands on LEDs, which VMB8IR alone has.
ghost use Rattle.std.specs.Prelude.{◌≡◌, ◌+◌, ◌≤◌};
ghost use Rattle.laws.specs.Codes.{code_in};
ghost use Rattle.frame.specs.Bytes.{byte};
ghost use Rattle.commands.specs.Arms.{Ready, Heard};

use crate::forms::formed;
use changes::{tell_leds, tell_some_leds};
use frame::LOW;
use kinds::VMB8IR;
use laws::{Refusal, byte_at, wide32};

// All LEDs, with the inputs.
pub(crate) fn inputs_told(
    picture: &mut [u8],
    slot: u8,
    kind: u8,
    priority: u32,
    data: &[u8],
) -> Result<(), Refusal>
    requires { Ready picture.old slot kind × (byte 1 «data».now ≡ 0xEB) }
    ensures { Heard picture.old slot kind priority «data».now (code_in result) picture.new }
{
    if wide32(kind) != VMB8IR {
        return Err(Refusal::NotListed);
    }
    formed(priority, LOW, data, 5)?;
    tell_leds(
        picture,
        slot,
        byte_at(data, 2),
        byte_at(data, 3),
        byte_at(data, 4),
    );
    Ok(())
}

// All LEDs.
pub(crate) fn leds_told(
    picture: &mut [u8],
    slot: u8,
    kind: u8,
    priority: u32,
    data: &[u8],
) -> Result<(), Refusal>
    requires { Ready picture.old slot kind × (byte 1 «data».now ≡ 0xF4) }
    ensures { Heard picture.old slot kind priority «data».now (code_in result) picture.new }
{
    if wide32(kind) != VMB8IR {
        return Err(Refusal::NotListed);
    }
    formed(priority, LOW, data, 4)?;
    tell_leds(
        picture,
        slot,
        byte_at(data, 1),
        byte_at(data, 2),
        byte_at(data, 3),
    );
    Ok(())
}

// Some LEDs, all in the state of that number.
pub(crate) fn some_leds_told(
    picture: &mut [u8],
    slot: u8,
    kind: u8,
    state: u8,
    priority: u32,
    data: &[u8],
) -> Result<(), Refusal>
    requires { Ready picture.old slot kind × (state ≤ 4) × (byte 1 «data».now ≡ 0xF5 + state) }
    ensures { Heard picture.old slot kind priority «data».now (code_in result) picture.new }
{
    if wide32(kind) != VMB8IR {
        return Err(Refusal::NotListed);
    }
    formed(priority, LOW, data, 2)?;
    tell_some_leds(picture, slot, byte_at(data, 1), state);
    Ok(())
}
