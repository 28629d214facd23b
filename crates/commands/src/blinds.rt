// The commands on a blind, which every type but VMB8IR has.
ghost use Rattle.std.specs.Prelude.{◌≡◌, ◌<◌, true, ◌≢◌};
ghost use Rattle.laws.specs.Codes.{code_in};
ghost use Rattle.laws.specs.Tests.{among};
ghost use Rattle.kinds.specs.Types.{module_types, vmb8ir};
ghost use Rattle.frame.specs.Bytes.{byte};
ghost use Rattle.fields.specs.Fields.{blind_status_fault, field_refusal};
ghost use Rattle.commands.specs.Arms.{Ready, Heard, Moves, blind_in, blind_fit, is_state, status_bytes};

use crate::forms::formed;
use changes::{ask_one, tell_one};
use fields::{blind_status_fault, stop_fault};
use frame::{HIGH, LOW};
use kinds::{VMB2BL, VMB8IR, one_bit};
use laws::{Refusal, both, byte_at, either, wide32};
use places::BLINDS;

// The blind that a byte stands for, from 1; 0 where it stands for none. The byte is compared before the type: the first blind is the same for
// every type that has any.
fn blind_in(kind: u8, channel: u8) -> u8
    requires { (among kind module_types ≡ true) × (kind ≢ vmb8ir) }
    ensures { result ≡ blind_in kind channel }
{
    if channel == 0x03 {
        return 1;
    }
    if channel == 0x0C {
        if wide32(kind) == VMB2BL {
            return 2;
        }
    }
    0
}

// The same of a status whose bytes 3 and 5 are allowed; else 0.
fn blind_fit(kind: u8, channel: u8, timeout: u8, led: u8) -> u8
    requires { (among kind module_types ≡ true) × (kind ≢ vmb8ir) }
    ensures { result ≡ blind_fit kind channel timeout led }
{
    if both(timeout <= 3, either(led == 0, one_bit(led))) {
        blind_in(kind, channel)
    } else {
        0
    }
}

// Off, up or down, of a blind whose bit for up is known.
fn is_state(up: u8, state: u8) -> bool
    requires { up < 128 }
    ensures { result ≡ is_state up state }
{
    either(state == 0, either(state == up, state == 2 * up))
}

// A status of the right form, by its bytes 2 to 5. Each blind has its own way, where its place and its bits are numbers that are known; what fits
// neither is judged in order.
fn status_told(
    picture: &mut [u8],
    slot: u8,
    kind: u8,
    channel: u8,
    timeout: u8,
    state: u8,
    led: u8,
) -> Result<(), Refusal>
    requires { (among kind module_types ≡ true) × (kind ≢ vmb8ir) }
    ensures value { code_in result ≡ field_refusal (blind_status_fault kind channel timeout state led) }
    ensures picture_after { picture.new ≡ status_bytes picture.old slot kind channel timeout state led }
{
    let n = blind_fit(kind, channel, timeout, led);
    if both(n == 1, is_state(1, state)) {
        tell_one(picture, slot, BLINDS, state);
        return Ok(());
    }
    if both(n == 2, is_state(4, state)) {
        tell_one(picture, slot, BLINDS + 1, state / 4);
        return Ok(());
    }
    blind_status_fault(wide32(kind), channel, timeout, state, led)
}

// A blind's state told.
pub(crate) fn blind_told(
    picture: &mut [u8],
    slot: u8,
    kind: u8,
    priority: u32,
    data: &[u8],
) -> Result<(), Refusal>
    requires { Ready picture.old slot kind × (byte 1 «data».now ≡ 0xEC) }
    ensures { Heard picture.old slot kind priority «data».now (code_in result) picture.new }
{
    if wide32(kind) == VMB8IR {
        return Err(Refusal::NotListed);
    }
    formed(priority, LOW, data, 8)?;
    status_told(
        picture,
        slot,
        kind,
        byte_at(data, 1),
        byte_at(data, 2),
        byte_at(data, 3),
        byte_at(data, 4),
    )
}

// A blind to be stopped or moved: what it then does is not heard. Of a time in three bytes every number is allowed.
pub(crate) fn blind_moved(
    picture: &mut [u8],
    slot: u8,
    kind: u8,
    priority: u32,
    data: &[u8],
    count: usize,
) -> Result<(), Refusal>
    requires { Ready picture.old slot kind × Moves (byte 1 «data».now) count }
    ensures { Heard picture.old slot kind priority «data».now (code_in result) picture.new }
{
    if wide32(kind) == VMB8IR {
        return Err(Refusal::NotListed);
    }
    formed(priority, HIGH, data, count)?;
    let n = blind_in(kind, byte_at(data, 1));
    if n == 0 {
        return stop_fault(wide32(kind), byte_at(data, 1));
    }
    ask_one(picture, slot, BLINDS + wide32(n - 1));
    Ok(())
}
