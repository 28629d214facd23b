// Which fields are allowed, by the module's type. Where one is not, the refusal is 9 with the number of the first data byte, from the left, that no
// allowed choice of the later bytes can repair; reader and writer both go by it.
ghost use Rattle.std.specs.Prelude.{◌≡◌, ◌||◌, eqb};
ghost use Rattle.laws.specs.Codes.{code_in};
ghost use Rattle.laws.specs.Refusals.{bad_field, code_at};
ghost use Rattle.laws.specs.Tests.{among, unless};
ghost use Rattle.kinds.specs.Types.{blind_of};
ghost use Rattle.fields.specs.Fields.{of_blinds, is_blind, channel_allowed, buttons_allowed, asked_allowed, time_allowed, timeouts_allowed, blind_states, location_fault, cell_fault, block_fault, buttons_fault, channel_fault, last_part_fault, name_asked_fault, status_asked_fault, blind_status_fault, stop_fault, type_short_fault, timed_fault, field_refusal};

use frame::{Location, Time};
use kinds::{VMB1BL, VMB2BL, VMB8IR, extent_of, last_cell, last_start, name_of, one_bit, up_bit};
use laws::{Refusal, both, either, wide32};

// A field whose test fails is not allowed, and is told by its byte.
fn allowed_at(byte: u8, test: bool) -> Result<(), Refusal>
    ensures { code_in result ≡ unless test (code_at bad_field byte) 0 }
{
    if test {
        Ok(())
    } else {
        Err(Refusal::BadField(byte))
    }
}

// A test that binds the types with blinds alone.
fn of_blinds(kind: u32, test: bool) -> bool
    ensures { result ≡ of_blinds kind test }
{
    let e = extent_of(kind);
    either(e.blinds == 0, test)
}

fn is_blind(kind: u32, channel: u8) -> bool
    ensures { result ≡ is_blind kind channel }
{
    match kind {
        VMB1BL => channel == 0x03,
        VMB8IR => false,
        VMB2BL => either(channel == 0x03, channel == 0x0C),
        _ => false,
    }
}

pub fn channel_allowed(kind: u32, x: u8) -> bool
    ensures { result ≡ channel_allowed kind x }
{
    let e = extent_of(kind);
    wide32(name_of(kind, x)) <= e.names
}

// Buttons that the type has, a bit for each.
fn buttons_allowed(kind: u32, x: u8) -> bool
    ensures { result ≡ buttons_allowed kind x }
{
    match kind {
        VMB1BL => both(x < 64, x / 4 % 4 == 0),
        VMB8IR => true,
        VMB2BL => true,
        _ => x == 0,
    }
}

// The two bits of a blind, which has both; or of no blind, which has none.
fn both_or_none(pair: u8) -> bool
    ensures { result ≡ eqb pair 0 || eqb pair 3 }
{
    either(pair == 0, pair == 3)
}

// Channels whose names may be asked for together: on a type with blinds any of them, put together, where a blind has both its bits.
fn asked_allowed(kind: u32, x: u8) -> bool
    ensures { result ≡ asked_allowed kind x }
{
    let e = extent_of(kind);
    if e.blinds == 0 {
        return channel_allowed(kind, x);
    }
    let whole = both(both_or_none(x % 4), both_or_none(x / 4 % 4));
    both(x != 0, both(buttons_allowed(kind, x), whole))
}

fn time_allowed(t: Time) -> bool
    ensures { result ≡ time_allowed t }
{
    match t {
        Time::DipSwitch => true,
        Time::Permanently => true,
        Time::Seconds(n) => both(1 <= n, n <= 16777214),
    }
}

fn location_fault(last: u32, l: Location) -> Result<(), Refusal>
    ensures { code_in result ≡ field_refusal (location_fault last l) }
{
    let n = l.0 as u32;
    if n <= last {
        return Ok(());
    }
    allowed_at(2, n / 256 <= last / 256)?;
    Err(Refusal::BadField(3))
}

pub fn cell_fault(kind: u32, l: Location) -> Result<(), Refusal>
    ensures { code_in result ≡ field_refusal (cell_fault kind l) }
{
    location_fault(last_cell(kind), l)
}

pub fn block_fault(kind: u32, l: Location) -> Result<(), Refusal>
    ensures { code_in result ≡ field_refusal (block_fault kind l) }
{
    location_fault(last_start(kind), l)
}

// Of a type that does not have all eight buttons.
fn some_buttons_fault(kind: u32, a: u8, b: u8, c: u8) -> Result<(), Refusal>
    ensures { code_in result ≡ field_refusal (buttons_fault kind a b c) }
{
    allowed_at(2, buttons_allowed(kind, a))?;
    allowed_at(3, buttons_allowed(kind, b))?;
    allowed_at(4, buttons_allowed(kind, c))
}

pub fn buttons_fault(kind: u32, a: u8, b: u8, c: u8) -> Result<(), Refusal>
    ensures { code_in result ≡ field_refusal (buttons_fault kind a b c) }
{
    match kind {
        VMB8IR => Ok(()),
        VMB2BL => Ok(()),
        _ => some_buttons_fault(kind, a, b, c),
    }
}

pub fn channel_fault(kind: u32, channel: u8) -> Result<(), Refusal>
    ensures { code_in result ≡ field_refusal (channel_fault kind channel) }
{
    allowed_at(2, channel_allowed(kind, channel))
}

pub fn name_asked_fault(kind: u32, x: u8) -> Result<(), Refusal>
    ensures { code_in result ≡ field_refusal (name_asked_fault kind x) }
{
    allowed_at(2, asked_allowed(kind, x))
}

// The last part of a name: a button of a type with blinds has 15 characters, and H'FF' after them.
pub fn last_part_fault(kind: u32, channel: u8, last: u8) -> Result<(), Refusal>
    ensures { code_in result ≡ field_refusal (last_part_fault kind channel last) }
{
    allowed_at(2, channel_allowed(kind, channel))?;
    let whole = either(is_blind(kind, channel), last == 0xFF);
    allowed_at(6, of_blinds(kind, whole))
}

pub fn status_asked_fault(kind: u32, channel: u8) -> Result<(), Refusal>
    ensures { code_in result ≡ field_refusal (status_asked_fault kind channel) }
{
    allowed_at(2, of_blinds(kind, is_blind(kind, channel)))
}

// Off, up or down.
fn state_allowed(kind: u32, channel: u8, state: u8) -> bool
    ensures { result ≡ among state (blind_states (blind_of kind channel)) }
{
    let up = up_bit(kind, channel);
    either(state == 0, either(state == up, state == 2 * up))
}

pub fn blind_status_fault(
    kind: u32,
    channel: u8,
    timeout: u8,
    state: u8,
    led: u8,
) -> Result<(), Refusal>
    ensures { code_in result ≡ field_refusal (blind_status_fault kind channel timeout state led) }
{
    allowed_at(2, is_blind(kind, channel))?;
    allowed_at(3, timeout <= 3)?;
    allowed_at(4, state_allowed(kind, channel, state))?;
    allowed_at(5, either(led == 0, one_bit(led)))
}

pub fn stop_fault(kind: u32, channel: u8) -> Result<(), Refusal>
    ensures { code_in result ≡ field_refusal (stop_fault kind channel) }
{
    allowed_at(2, is_blind(kind, channel))
}

// Two bits for each blind.
fn timeouts_allowed(kind: u32, timeouts: u8) -> bool
    ensures { result ≡ timeouts_allowed kind timeouts }
{
    match kind {
        VMB1BL => timeouts < 4,
        VMB8IR => timeouts < 1,
        VMB2BL => timeouts < 16,
        _ => timeouts < 1,
    }
}

pub fn type_short_fault(kind: u32, timeouts: u8) -> Result<(), Refusal>
    ensures { code_in result ≡ field_refusal (type_short_fault kind timeouts) }
{
    allowed_at(3, timeouts_allowed(kind, timeouts))
}

pub fn timed_fault(kind: u32, channel: u8, t: Time) -> Result<(), Refusal>
    ensures { code_in result ≡ field_refusal (timed_fault kind channel t) }
{
    allowed_at(2, is_blind(kind, channel))?;
    allowed_at(3, time_allowed(t))
}
