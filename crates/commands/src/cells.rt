// The commands on cells. Each of these is called for its one command, which is known there with its row.
ghost use Rattle.std.specs.Prelude.{◌≡◌};
ghost use Rattle.laws.specs.Codes.{code_in};
ghost use Rattle.frame.specs.Bytes.{byte};
ghost use Rattle.commands.specs.Arms.{Ready, Heard};

use crate::forms::{formed, last_of, last_start_of, location_in};
use changes::{ask_four, ask_one, pass, tell_four, tell_one};
use fields::{block_fault, cell_fault};
use frame::LOW;
use laws::{Refusal, byte_at, wide32};
use places::cell_place;

// A cell told.
pub(crate) fn cell_told(
    picture: &mut [u8],
    slot: u8,
    kind: u8,
    priority: u32,
    data: &[u8],
) -> Result<(), Refusal>
    requires { Ready picture.old slot kind × (byte 1 «data».now ≡ 0xFE) }
    ensures { Heard picture.old slot kind priority «data».now (code_in result) picture.new }
{
    formed(priority, LOW, data, 4)?;
    let l = location_in(data);
    if l.0 as u32 > last_of(kind) {
        return cell_fault(wide32(kind), l);
    }
    tell_one(picture, slot, cell_place(kind, l), byte_at(data, 3));
    Ok(())
}

// Four cells told.
pub(crate) fn block_told(
    picture: &mut [u8],
    slot: u8,
    kind: u8,
    priority: u32,
    data: &[u8],
) -> Result<(), Refusal>
    requires { Ready picture.old slot kind × (byte 1 «data».now ≡ 0xCC) }
    ensures { Heard picture.old slot kind priority «data».now (code_in result) picture.new }
{
    formed(priority, LOW, data, 7)?;
    let l = location_in(data);
    if l.0 as u32 > last_start_of(kind) {
        return block_fault(wide32(kind), l);
    }
    tell_four(
        picture,
        slot,
        cell_place(kind, l),
        byte_at(data, 3),
        byte_at(data, 4),
        byte_at(data, 5),
        byte_at(data, 6),
    );
    Ok(())
}

// A cell to be written: what it will be is not heard.
pub(crate) fn cell_set(
    picture: &mut [u8],
    slot: u8,
    kind: u8,
    priority: u32,
    data: &[u8],
) -> Result<(), Refusal>
    requires { Ready picture.old slot kind × (byte 1 «data».now ≡ 0xFC) }
    ensures { Heard picture.old slot kind priority «data».now (code_in result) picture.new }
{
    formed(priority, LOW, data, 4)?;
    let l = location_in(data);
    if l.0 as u32 > last_of(kind) {
        return cell_fault(wide32(kind), l);
    }
    ask_one(picture, slot, cell_place(kind, l));
    Ok(())
}

// Four cells to be written.
pub(crate) fn block_set(
    picture: &mut [u8],
    slot: u8,
    kind: u8,
    priority: u32,
    data: &[u8],
) -> Result<(), Refusal>
    requires { Ready picture.old slot kind × (byte 1 «data».now ≡ 0xCA) }
    ensures { Heard picture.old slot kind priority «data».now (code_in result) picture.new }
{
    formed(priority, LOW, data, 7)?;
    let l = location_in(data);
    if l.0 as u32 > last_start_of(kind) {
        return block_fault(wide32(kind), l);
    }
    ask_four(picture, slot, cell_place(kind, l));
    Ok(())
}

// A cell asked for.
pub(crate) fn cell_asked(
    picture: &mut [u8],
    slot: u8,
    kind: u8,
    priority: u32,
    data: &[u8],
) -> Result<(), Refusal>
    requires { Ready picture.old slot kind × (byte 1 «data».now ≡ 0xFD) }
    ensures { Heard picture.old slot kind priority «data».now (code_in result) picture.new }
{
    formed(priority, LOW, data, 3)?;
    let l = location_in(data);
    if l.0 as u32 > last_of(kind) {
        return cell_fault(wide32(kind), l);
    }
    pass(picture);
    Ok(())
}

// Four cells asked for.
pub(crate) fn block_asked(
    picture: &mut [u8],
    slot: u8,
    kind: u8,
    priority: u32,
    data: &[u8],
) -> Result<(), Refusal>
    requires { Ready picture.old slot kind × (byte 1 «data».now ≡ 0xC9) }
    ensures { Heard picture.old slot kind priority «data».now (code_in result) picture.new }
{
    formed(priority, LOW, data, 3)?;
    let l = location_in(data);
    if l.0 as u32 > last_start_of(kind) {
        return block_fault(wide32(kind), l);
    }
    pass(picture);
    Ok(())
}
