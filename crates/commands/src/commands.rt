// A command by its number: each has one function, called here and nowhere else, so that it becomes a part of this one.
ghost use Rattle.std.specs.Prelude.{◌≡◌, false};
ghost use Rattle.laws.specs.Codes.{code_in};
ghost use Rattle.laws.specs.Tests.{among};
ghost use Rattle.frame.specs.Bytes.{byte};
ghost use Rattle.commands.specs.Commands.{command_number, command_bytes};
ghost use Rattle.commands.specs.Arms.{single, Ready, Heard};

use crate::blinds::{blind_moved, blind_told};
use crate::cells::{block_asked, block_set, block_told, cell_asked, cell_set, cell_told};
use crate::lights::{inputs_told, leds_told, some_leds_told};
use crate::names::{last_told, name_asked, six_told};
use crate::others::{buttons_told, free_heard, status_asked};
use kinds::module_type;
use laws::{Refusal, byte_at, wide32};
use shape::{ROOM, SIZE};

// The commands that stand in a row of numbers, and share a function: F5 to F9, F0 and F1. Every other is in no module's list.
fn hear_rest(
    picture: &mut [u8],
    slot: u8,
    kind: u8,
    priority: u32,
    command: u8,
    data: &[u8],
) -> Result<(), Refusal>
    requires { Ready picture.old slot kind × (command ≡ byte 1 «data».now) × (among command single ≡ false) }
    ensures { Heard picture.old slot kind priority «data».now (code_in result) picture.new }
{
    let state = std::num::wrapping_sub_u8(command, 0xF5);
    if state <= 4 {
        return some_leds_told(picture, slot, kind, state, priority, data);
    }
    let part = std::num::wrapping_sub_u8(command, 0xF0);
    if part <= 1 {
        return six_told(picture, slot, kind, part, priority, data);
    }
    Err(Refusal::NotListed)
}

// Any command to a module.
fn hear_listed(
    picture: &mut [u8],
    slot: u8,
    kind: u8,
    priority: u32,
    data: &[u8],
) -> Result<(), Refusal>
    requires { Ready picture.old slot kind }
    ensures { Heard picture.old slot kind priority «data».now (code_in result) picture.new }
{
    let command = byte_at(data, 0);
    match command {
        0x00 => buttons_told(picture, slot, kind, priority, data),
        0xFE => cell_told(picture, slot, kind, priority, data),
        0xCC => block_told(picture, slot, kind, priority, data),
        0xFC => cell_set(picture, slot, kind, priority, data),
        0xCA => block_set(picture, slot, kind, priority, data),
        0xFD => cell_asked(picture, slot, kind, priority, data),
        0xC9 => block_asked(picture, slot, kind, priority, data),
        0xF2 => last_told(picture, slot, kind, priority, data),
        0xEF => name_asked(picture, slot, kind, priority, data),
        0xFA => status_asked(picture, slot, kind, priority, data),
        0xDA => free_heard(picture, slot, kind, priority, data, 4),
        0xCB => free_heard(picture, slot, kind, priority, data, 1),
        0xD9 => free_heard(picture, slot, kind, priority, data, 1),
        0xEB => inputs_told(picture, slot, kind, priority, data),
        0xF4 => leds_told(picture, slot, kind, priority, data),
        0xEC => blind_told(picture, slot, kind, priority, data),
        0x04 => blind_moved(picture, slot, kind, priority, data, 2),
        0x05 => blind_moved(picture, slot, kind, priority, data, 5),
        0x06 => blind_moved(picture, slot, kind, priority, data, 5),
        _ => hear_rest(picture, slot, kind, priority, command, data),
    }
}

// A frame with data that the module in a slot, of the type `kind`, sends or is sent: refused, or what it names is told.
pub fn hear_command(
    picture: &mut [u8],
    slot: u8,
    kind: u8,
    priority: u32,
    data: &[u8],
) -> Result<(), Refusal>
    ensures value { code_in result ≡ command_number picture.old slot kind priority «data».now }
    ensures picture_after { picture.new ≡ command_bytes picture.old slot kind priority «data».now }
{
    if picture.len() < SIZE {
        return Err(Refusal::TooShort);
    }
    if slot >= ROOM {
        return Err(Refusal::TypeNotKnown);
    }
    if !module_type(wide32(kind)) {
        return Err(Refusal::NotListed);
    }
    hear_listed(picture, slot, kind, priority, data)
}
