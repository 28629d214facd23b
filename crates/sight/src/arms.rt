// Frames taken at one look: each function is called for its one command, of lowest priority and for the bench's own address. A frame that fits its row,
// with allowed fields and room for its replies, is not read as a message; every other goes the general way, whose answer is the whole answer.
ghost use Rattle.std.specs.Prelude.{◌≡◌, ◌+◌, ◌≤◌};
ghost use Rattle.frame.specs.Bytes.{byte};
ghost use Rattle.sight.specs.Arms.{Ours, Took, located};

use crate::laying::{BLOCKS, tell_all, tell_block, tell_cell, tell_name, tell_status};
use crate::words::any_word;
use bench::{set_all, set_block, set_cell, set_some};
use codec::FRAME_SIZE;
use frame::Location;
use kinds::one_bit;
use laws::{both, byte_at, wide16};

// The room for one reply, for a name's three, and for all the cells.
const ONE: usize = FRAME_SIZE as usize;

const THREE: usize = 3 * ONE;

const ALL: usize = BLOCKS as usize * ONE;

fn located(data: &[u8], count: usize, last: u8) -> bool
    ensures { result ≡ located count last «data».now }
{
    let near = both(byte_at(data, 1) == 0, byte_at(data, 2) <= last);
    both(data.len() == count, near)
}

fn cell_asked(
    bench: &mut [u8],
    address: u8,
    identifier: u32,
    data: &[u8],
    replies: &mut [u8],
) -> u32
    requires { Ours bench.old address identifier × (byte 1 «data».now ≡ 0xFD) }
    ensures { Took bench.old identifier 0 «data».now replies.old result bench.new replies.new }
{
    if !both(located(data, 3, 255), ONE <= replies.len()) {
        return any_word(bench, identifier, 0, data, replies);
    }
    tell_cell(bench, address, byte_at(data, 2), replies);
    1
}

fn block_asked(
    bench: &mut [u8],
    address: u8,
    identifier: u32,
    data: &[u8],
    replies: &mut [u8],
) -> u32
    requires { Ours bench.old address identifier × (byte 1 «data».now ≡ 0xC9) }
    ensures { Took bench.old identifier 0 «data».now replies.old result bench.new replies.new }
{
    if !both(located(data, 3, 252), ONE <= replies.len()) {
        return any_word(bench, identifier, 0, data, replies);
    }
    tell_block(bench, address, byte_at(data, 2), replies);
    1
}

fn all_asked(bench: &mut [u8], address: u8, identifier: u32, data: &[u8], replies: &mut [u8]) -> u32
    requires { Ours bench.old address identifier × (byte 1 «data».now ≡ 0xCB) }
    ensures { Took bench.old identifier 0 «data».now replies.old result bench.new replies.new }
{
    if !both(data.len() == 1, ALL <= replies.len()) {
        return any_word(bench, identifier, 0, data, replies);
    }
    tell_all(bench, address, replies);
    64
}

fn name_asked(
    bench: &mut [u8],
    address: u8,
    identifier: u32,
    data: &[u8],
    replies: &mut [u8],
) -> u32
    requires { Ours bench.old address identifier × (byte 1 «data».now ≡ 0xEF) }
    ensures { Took bench.old identifier 0 «data».now replies.old result bench.new replies.new }
{
    let n = byte_at(data, 1);
    if !both(both(data.len() == 2, one_bit(n)), THREE <= replies.len()) {
        return any_word(bench, identifier, 0, data, replies);
    }
    tell_name(bench, address, n, replies);
    3
}

fn status_asked(
    bench: &mut [u8],
    address: u8,
    identifier: u32,
    data: &[u8],
    replies: &mut [u8],
) -> u32
    requires { Ours bench.old address identifier × (byte 1 «data».now ≡ 0xFA) }
    ensures { Took bench.old identifier 0 «data».now replies.old result bench.new replies.new }
{
    if !both(data.len() == 2, ONE <= replies.len()) {
        return any_word(bench, identifier, 0, data, replies);
    }
    tell_status(bench, address, replies);
    1
}

fn cell_set(bench: &mut [u8], address: u8, identifier: u32, data: &[u8], replies: &mut [u8]) -> u32
    requires { Ours bench.old address identifier × (byte 1 «data».now ≡ 0xFC) }
    ensures { Took bench.old identifier 0 «data».now replies.old result bench.new replies.new }
{
    if !located(data, 4, 255) {
        return any_word(bench, identifier, 0, data, replies);
    }
    let l = Location(wide16(byte_at(data, 2)));
    set_cell(bench, l, byte_at(data, 3));
    0
}

fn block_set(bench: &mut [u8], address: u8, identifier: u32, data: &[u8], replies: &mut [u8]) -> u32
    requires { Ours bench.old address identifier × (byte 1 «data».now ≡ 0xCA) }
    ensures { Took bench.old identifier 0 «data».now replies.old result bench.new replies.new }
{
    if !both(located(data, 7, 252), ONE <= replies.len()) {
        return any_word(bench, identifier, 0, data, replies);
    }
    let l = byte_at(data, 2);
    set_block(
        bench,
        Location(wide16(l)),
        byte_at(data, 3),
        byte_at(data, 4),
        byte_at(data, 5),
        byte_at(data, 6),
    );
    tell_block(bench, address, l, replies);
    1
}

fn leds_set(bench: &mut [u8], address: u8, identifier: u32, data: &[u8], replies: &mut [u8]) -> u32
    requires { Ours bench.old address identifier × (byte 1 «data».now ≡ 0xF4) }
    ensures { Took bench.old identifier 0 «data».now replies.old result bench.new replies.new }
{
    if data.len() != 4 {
        return any_word(bench, identifier, 0, data, replies);
    }
    set_all(bench, byte_at(data, 1), byte_at(data, 2), byte_at(data, 3));
    0
}

// F5 to F9, by the state that the LEDs of the mask get.
fn some_leds_set(
    bench: &mut [u8],
    state: u8,
    address: u8,
    identifier: u32,
    data: &[u8],
    replies: &mut [u8],
) -> u32
    requires { Ours bench.old address identifier × ((state ≤ 4) × (byte 1 «data».now ≡ 0xF5 + state)) }
    ensures { Took bench.old identifier 0 «data».now replies.old result bench.new replies.new }
{
    if data.len() != 2 {
        return any_word(bench, identifier, 0, data, replies);
    }
    set_some(bench, byte_at(data, 1), state);
    0
}

fn take_rest(
    bench: &mut [u8],
    command: u8,
    address: u8,
    identifier: u32,
    data: &[u8],
    replies: &mut [u8],
) -> u32
    requires { Ours bench.old address identifier × (command ≡ byte 1 «data».now) }
    ensures { Took bench.old identifier 0 «data».now replies.old result bench.new replies.new }
{
    let state = std::num::wrapping_sub_u8(command, 0xF5);
    if state <= 4 {
        return some_leds_set(bench, state, address, identifier, data, replies);
    }
    any_word(bench, identifier, 0, data, replies)
}

pub(crate) fn take_own(
    bench: &mut [u8],
    address: u8,
    identifier: u32,
    data: &[u8],
    replies: &mut [u8],
) -> u32
    requires { Ours bench.old address identifier }
    ensures { Took bench.old identifier 0 «data».now replies.old result bench.new replies.new }
{
    let command = byte_at(data, 0);
    match command {
        0xFD => cell_asked(bench, address, identifier, data, replies),
        0xC9 => block_asked(bench, address, identifier, data, replies),
        0xCB => all_asked(bench, address, identifier, data, replies),
        0xEF => name_asked(bench, address, identifier, data, replies),
        0xFA => status_asked(bench, address, identifier, data, replies),
        0xFC => cell_set(bench, address, identifier, data, replies),
        0xCA => block_set(bench, address, identifier, data, replies),
        0xF4 => leds_set(bench, address, identifier, data, replies),
        _ => take_rest(bench, command, address, identifier, data, replies),
    }
}
