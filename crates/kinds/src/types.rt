// The module types: their numbers, how much each has, and the numbers of its names and its blinds.
ghost use Rattle.std.specs.Prelude.{◌≡◌, ◌-◌};
ghost use Rattle.laws.specs.Tests.{among};
ghost use Rattle.kinds.specs.Types.{module_types, handed_types, last_cell, last_start, extent_of, blind_channels, two_blind_channels, position_in, name_of, names_in_memory, blind_of, up_bit};

use crate::bits::bit_position;

pub const NO_TYPE: u32 = 0x00;

pub const VMB1BL: u32 = 0x03;

pub const VMB8IR: u32 = 0x0A;

pub const VMB2BL: u32 = 0x09;

// A command's length and its priority; length 0 where the type has no such command.
#[derive(Clone, Copy)]
pub struct Row(pub usize, pub u32);

// How much a type has.
#[derive(Clone, Copy)]
pub struct Extent {
    pub cells: u32,
    pub names: u32,
    pub leds: u32,
    pub blinds: u32,
}

pub fn module_type(kind: u32) -> bool
    ensures { result ≡ among kind module_types }
{
    match kind {
        VMB1BL => true,
        VMB8IR => true,
        VMB2BL => true,
        _ => false,
    }
}

// A type that may be handed in: none, or a module's.
pub fn handed_type(kind: u32) -> bool
    ensures { result ≡ among kind handed_types }
{
    if kind == NO_TYPE {
        true
    } else {
        module_type(kind)
    }
}

pub fn extent_of(kind: u32) -> Extent
    ensures { result ≡ extent_of kind }
{
    match kind {
        VMB1BL => Extent {
            cells: 128,
            names: 3,
            leds: 0,
            blinds: 1,
        },
        VMB8IR => Extent {
            cells: 256,
            names: 8,
            leds: 8,
            blinds: 0,
        },
        VMB2BL => Extent {
            cells: 256,
            names: 6,
            leds: 0,
            blinds: 2,
        },
        _ => Extent {
            cells: 0,
            names: 0,
            leds: 0,
            blinds: 0,
        },
    }
}

// Whether the names of a type live in its memory.
pub fn names_in_memory(kind: u32) -> bool
    ensures { result ≡ names_in_memory kind }
{
    match kind {
        VMB1BL => false,
        VMB8IR => true,
        VMB2BL => false,
        _ => false,
    }
}

// The cell so many before the end; the first where there are not so many.
fn from_end(cells: u32, n: u32) -> u32
    ensures { result ≡ cells - n }
{
    if cells < n { 0 } else { cells - n }
}

pub fn last_cell(kind: u32) -> u32
    ensures { result ≡ last_cell kind }
{
    let e = extent_of(kind);
    from_end(e.cells, 1)
}

// The last cell that a block of four can start at.
pub fn last_start(kind: u32) -> u32
    ensures { result ≡ last_start kind }
{
    let e = extent_of(kind);
    from_end(e.cells, 4)
}

// The blind, the up button and the down button.
fn blind_position(channel: u8) -> u8
    ensures { result ≡ position_in blind_channels channel }
{
    match channel {
        0x03 => 0,
        0x10 => 1,
        0x20 => 2,
        _ => 3,
    }
}

// Both blinds, then up 1, down 1, up 2 and down 2.
fn two_blind_position(channel: u8) -> u8
    ensures { result ≡ position_in two_blind_channels channel }
{
    match channel {
        0x03 => 0,
        0x0C => 1,
        0x10 => 2,
        0x20 => 3,
        0x40 => 4,
        0x80 => 5,
        _ => 6,
    }
}

// The number of a channel's name, from 1; one more than the type has where it has no such channel.
pub fn name_of(kind: u32, channel: u8) -> u8
    ensures { result ≡ name_of kind channel }
{
    match kind {
        VMB1BL => blind_position(channel) + 1,
        VMB8IR => bit_position(channel) + 1,
        VMB2BL => two_blind_position(channel) + 1,
        _ => 1,
    }
}

// The number of a blind, from 1; one more than the type has where it has no such blind.
pub fn blind_of(kind: u32, channel: u8) -> u8
    ensures { result ≡ blind_of kind channel }
{
    match kind {
        VMB1BL => match channel {
            0x03 => 1,
            _ => 2,
        },
        VMB8IR => 1,
        VMB2BL => match channel {
            0x03 => 1,
            0x0C => 2,
            _ => 3,
        },
        _ => 1,
    }
}

// The bit that is up of a blind's two; down is the next.
pub fn up_bit(kind: u32, channel: u8) -> u8
    ensures { result ≡ up_bit (blind_of kind channel) }
{
    match blind_of(kind, channel) {
        1 => 1,
        2 => 4,
        _ => 16,
    }
}
