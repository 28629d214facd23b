// Hearing a frame: what it is refused for, and what it does to the picture. Its own tests come first, then a type request and the type
// frame; every other command is judged and told at one look.
ghost use Rattle.std.specs.Prelude.{◌≡◌, true, not, eqb, ◌<◌, ◌≤◌, length};
ghost use Rattle.laws.specs.Codes.{code_of, code_in, coded};
ghost use Rattle.laws.specs.Refusals.{bad_type, type_not_known};
ghost use Rattle.laws.specs.Tests.{among, unless};
ghost use Rattle.kinds.specs.Types.{no_type, handed_types, row_for};
ghost use Rattle.frame.specs.Bytes.{byte};
ghost use Rattle.frame.specs.Messages.{type_command, type_frame};
ghost use Rattle.judging.specs.Reading.{frame_refusal};
ghost use Rattle.places.specs.Runs.{meaning_of};
ghost use Rattle.shape.specs.Limits.{room, bus_address};
ghost use Rattle.shape.specs.Layout.{size};
ghost use Rattle.shape.specs.Head.{no_slot, kind_in};
ghost use Rattle.picture.specs.Hearing.{hearing_as, hearing_at, hearing, number_of};

use changes::{pass, tell_build};
use commands::hear_command;
use frame::{TYPE_FRAME, address_of};
use judging::{form_refusal, is_frame, refusal_unlisted, request_refusal, untyped_refusal};
use kinds::{NO_TYPE, handed_type};
use laws::{Refusal, byte_at, wide32};
use modules::{enter, exchange};
use shape::{ROOM, SIZE, kind_in, slot_of};

// A type frame that was accepted, of the module in a slot: byte 2 is the type, and the last two bytes are the build.
fn enter_again(picture: &mut [u8], slot: u8, identifier: u32, kind: u8, data: &[u8])
    requires size_in_bounds { (size ≤ length picture.old) × (slot < room) × (2 ≤ length «data».now) }
    requires data_len { length «data».now ≡ (row_for (byte 2 «data».now) type_command).0 }
    ensures { picture.new ≡ (hearing_as picture.old slot (bus_address identifier) kind (meaning_of kind (type_frame «data».now))).buffer }
{
    let last = data.len() - 1;
    let year = data[last - 1];
    let week = data[last];
    let entered = byte_at(data, 1);
    if entered == kind {
        tell_build(picture, slot, year, week);
        return;
    }
    exchange(picture, slot, address_of(identifier), entered, year, week);
}

// The same of an address with no module: 10 where there is no room.
fn enter_new(picture: &mut [u8], identifier: u32, data: &[u8]) -> Result<(), Refusal>
    requires size_in_bounds { (size ≤ length picture.old) × (2 ≤ length «data».now) }
    requires data_len { length «data».now ≡ (row_for (byte 2 «data».now) type_command).0 }
    ensures value { code_in result ≡ number_of (hearing_as picture.old no_slot (bus_address identifier) no_type (meaning_of no_type (type_frame «data».now))) }
    ensures picture_after { picture.new ≡ (hearing_as picture.old no_slot (bus_address identifier) no_type (meaning_of no_type (type_frame «data».now))).buffer }
{
    let last = data.len() - 1;
    let year = data[last - 1];
    let week = data[last];
    enter(
        picture,
        address_of(identifier),
        byte_at(data, 1),
        year,
        week,
    )
}

// A type frame, of the module in a slot: it is judged by the type inside it.
fn hear_type(
    picture: &mut [u8],
    slot: u8,
    kind: u8,
    identifier: u32,
    remote: u32,
    data: &[u8],
) -> Result<(), Refusal>
    requires size_in_bounds { (size ≤ length picture.old) × (slot < room) × (kind ≡ kind_in picture.old slot) }
    requires handed_types_value { (among kind handed_types ≡ true) × (frame_refusal no_type identifier remote (length «data».now) ≡ 0) × (remote ≡ 1 → ⊥) × (byte 1 «data».now ≡ type_command) }
    ensures value { code_in result ≡ number_of (hearing_at picture.old slot identifier remote «data».now) }
    ensures picture_after { picture.new ≡ (hearing_at picture.old slot identifier remote «data».now).buffer }
{
    untyped_refusal(identifier / 512, data)?;
    enter_again(picture, slot, identifier, kind, data);
    Ok(())
}

// Whether the module's type may be handed in: 4 where it may not, before all else.
fn handed(kind: u8) -> Result<(), Refusal>
    ensures { code_in result ≡ unless (among kind handed_types) bad_type 0 }
{
    if handed_type(wide32(kind)) {
        Ok(())
    } else {
        Err(Refusal::BadType)
    }
}

// A type request, at an address whose slot is `slot`: a step with no effect.
fn hear_request(
    picture: &mut [u8],
    slot: u8,
    kind: u8,
    identifier: u32,
    remote: u32,
    data: &[u8],
) -> Result<(), Refusal>
    requires size_in_bounds { (size ≤ length picture.old) × (kind ≡ kind_in picture.old slot) }
    requires data_value { (frame_refusal no_type identifier remote (length «data».now) ≡ 0) × (remote ≡ 1) }
    ensures value { code_in result ≡ number_of (hearing_at picture.old slot identifier remote «data».now) }
    ensures picture_after { picture.new ≡ (hearing_at picture.old slot identifier remote «data».now).buffer }
{
    handed(kind)?;
    request_refusal(identifier / 512)?;
    pass(picture);
    Ok(())
}

// A frame of an address with no module: a type frame enters one, a type request is a step with no effect.
fn hear_unlisted(
    picture: &mut [u8],
    identifier: u32,
    remote: u32,
    data: &[u8],
) -> Result<(), Refusal>
    requires { size ≤ length picture.old }
    ensures value { code_in result ≡ number_of (hearing_at picture.old no_slot identifier remote «data».now) }
    ensures picture_after { picture.new ≡ (hearing_at picture.old no_slot identifier remote «data».now).buffer }
{
    refusal_unlisted(identifier, remote, data)?;
    if remote == 1 {
        pass(picture);
        return Ok(());
    }
    enter_new(picture, identifier, data)
}

// A type frame, where the module's type may be handed in.
fn hear_type_frame(
    picture: &mut [u8],
    slot: u8,
    kind: u8,
    identifier: u32,
    remote: u32,
    data: &[u8],
) -> Result<(), Refusal>
    requires size_in_bounds { (size ≤ length picture.old) × (slot < room) × (kind ≡ kind_in picture.old slot) }
    requires data_value { (frame_refusal no_type identifier remote (length «data».now) ≡ 0) × (remote ≡ 1 → ⊥) × (byte 1 «data».now ≡ type_command) }
    ensures value { code_in result ≡ number_of (hearing_at picture.old slot identifier remote «data».now) }
    ensures picture_after { picture.new ≡ (hearing_at picture.old slot identifier remote «data».now).buffer }
{
    handed(kind)?;
    hear_type(picture, slot, kind, identifier, remote, data)
}

// What a command is refused for at a type: 4 and 5 go by the type, before the rest.
fn refused_at(kind: u8, refusal: Refusal) -> Refusal
    ensures { code_of result ≡ unless (among kind handed_types) bad_type (unless (not (eqb kind no_type)) type_not_known (code_of refusal)) }
{
    if !handed_type(wide32(kind)) {
        return Refusal::BadType;
    }
    if wide32(kind) == NO_TYPE {
        return Refusal::TypeNotKnown;
    }
    refusal
}

// Any other command of the module in a slot: 4 and 5 go by its type, and the rest by its row and its fields.
fn hear_other(
    picture: &mut [u8],
    slot: u8,
    kind: u8,
    identifier: u32,
    remote: u32,
    data: &[u8],
) -> Result<(), Refusal>
    requires size_in_bounds { (size ≤ length picture.old) × (slot < room) × (kind ≡ kind_in picture.old slot) }
    requires data_value { (frame_refusal no_type identifier remote (length «data».now) ≡ 0) × (remote ≡ 1 → ⊥) × (byte 1 «data».now ≡ type_command → ⊥) }
    ensures value { code_in result ≡ number_of (hearing_at picture.old slot identifier remote «data».now) }
    ensures picture_after { picture.new ≡ (hearing_at picture.old slot identifier remote «data».now).buffer }
{
    match hear_command(picture, slot, kind, identifier / 512, data) {
        Ok(()) => Ok(()),
        Err(refusal) => Err(refused_at(kind, refusal)),
    }
}

// A frame of the module in a slot.
fn hear_listed(
    picture: &mut [u8],
    slot: u8,
    identifier: u32,
    remote: u32,
    data: &[u8],
) -> Result<(), Refusal>
    requires { (size ≤ length picture.old) × (slot < room) }
    ensures value { code_in result ≡ number_of (hearing_at picture.old slot identifier remote «data».now) }
    ensures picture_after { picture.new ≡ (hearing_at picture.old slot identifier remote «data».now).buffer }
{
    let kind = kind_in(picture, slot);
    if !is_frame(identifier, remote, data.len()) {
        handed(kind)?;
        return form_refusal(identifier, remote, data.len());
    }
    if remote == 1 {
        return hear_request(picture, slot, kind, identifier, remote, data);
    }
    if byte_at(data, 0) == TYPE_FRAME {
        return hear_type_frame(picture, slot, kind, identifier, remote, data);
    }
    hear_other(picture, slot, kind, identifier, remote, data)
}

// A frame heard: judged at the type of its address, then entered, told, or only counted as a step.
pub fn hear(picture: &mut [u8], identifier: u32, remote: u32, data: &[u8]) -> Result<(), Refusal>
    ensures value { coded result ≡ (hearing picture.old identifier remote «data».now).outcome }
    ensures picture_after { picture.new ≡ (hearing picture.old identifier remote «data».now).buffer }
{
    if picture.len() < SIZE {
        return Err(Refusal::TooShort);
    }
    let slot = slot_of(picture, address_of(identifier));
    if slot < ROOM {
        hear_listed(picture, slot, identifier, remote, data)
    } else {
        hear_unlisted(picture, identifier, remote, data)
    }
}
