// A frame judged on its bytes, with no message made of it: the first refusal in document 01's order.
ghost use Rattle.std.specs.Prelude.{◌≡◌, ℕ, eqb};
ghost use Rattle.laws.specs.Codes.{code_of, code_in};
ghost use Rattle.laws.specs.Refusals.{bad_identifier, sid0_set};
ghost use Rattle.laws.specs.Tests.{unless};
ghost use Rattle.frame.specs.Identifiers.{eleven_bits};
ghost use Rattle.kinds.specs.Types.{no_type};
ghost use Rattle.frame.specs.Bytes.{byte, data_of, bytes_of};
ghost use Rattle.frame.specs.Messages.{type_command, decode};
ghost use Rattle.judging.specs.Reading.{frame_refusal, command_refusal, request_refusal, reading, reading_number};

use crate::rows::refusal_by_row;
use frame::{LOW, TYPE_FRAME, known_priority, well_formed};
use kinds::{NO_TYPE, handed_type, module_type};
use laws::{MOST_IDENTIFIER, Refusal, both, byte_at, wide32};

// What an identifier that fails either test is refused for. Apart, so that a frame that passes both has one test.
fn identifier_refusal(identifier: u32) -> Refusal
    ensures { code_of result ≡ unless (eleven_bits identifier) bad_identifier sid0_set }
{
    if identifier <= MOST_IDENTIFIER {
        Refusal::Sid0Set
    } else {
        Refusal::BadIdentifier
    }
}

// Whatever the frame says: 4, 1, 17, 2, 3.
fn frame_refusal(kind: u32, identifier: u32, remote: u32, count: usize) -> Result<(), Refusal>
    ensures { code_in result ≡ frame_refusal kind identifier remote count }
{
    if !handed_type(kind) {
        return Err(Refusal::BadType);
    }
    if !both(identifier <= MOST_IDENTIFIER, identifier % 2 == 0) {
        return Err(identifier_refusal(identifier));
    }
    if !well_formed(remote, count) {
        return Err(Refusal::BadForm);
    }
    if !known_priority(identifier / 512) {
        return Err(Refusal::BadPriority);
    }
    Ok(())
}

// Whether there is none of these, at a type that may be handed in.
pub fn is_frame(identifier: u32, remote: u32, count: usize) -> bool
    ensures { result ≡ eqb (frame_refusal no_type identifier remote count) 0 }
{
    if !both(identifier <= MOST_IDENTIFIER, identifier % 2 == 0) {
        return false;
    }
    if !well_formed(remote, count) {
        return false;
    }
    known_priority(identifier / 512)
}

// Which it is.
pub fn form_refusal(identifier: u32, remote: u32, count: usize) -> Result<(), Refusal>
    ensures { code_in result ≡ frame_refusal no_type identifier remote count }
{
    frame_refusal(NO_TYPE, identifier, remote, count)
}

// H'FF', by the type inside it, whatever type is handed in: 7, 4, then the row's and the fields'.
fn type_refusal(priority: u32, data: &[u8]) -> Result<(), Refusal>
    requires { byte 1 «data».now ≡ type_command }
    ensures { (kind : ℕ) → code_in result ≡ command_refusal kind priority (data_of «data».now) (decode (bytes_of (data_of «data».now))) }
{
    if data.len() < 2 {
        return Err(Refusal::WrongLength);
    }
    let own = wide32(byte_at(data, 1));
    if !module_type(own) {
        return Err(Refusal::BadType);
    }
    refusal_by_row(own, TYPE_FRAME, priority, data)
}

// A frame with data: H'FF', or any other command, by the type handed in: 5, then the row's and the fields'.
fn command_refusal(kind: u32, priority: u32, data: &[u8]) -> Result<(), Refusal>
    ensures { code_in result ≡ command_refusal kind priority (data_of «data».now) (decode (bytes_of (data_of «data».now))) }
{
    let command = byte_at(data, 0);
    if command == TYPE_FRAME {
        return type_refusal(priority, data);
    }
    if kind == NO_TYPE {
        return Err(Refusal::TypeNotKnown);
    }
    refusal_by_row(kind, command, priority, data)
}

// The same at no type, and of H'FF' at any.
pub fn untyped_refusal(priority: u32, data: &[u8]) -> Result<(), Refusal>
    ensures { code_in result ≡ command_refusal no_type priority (data_of «data».now) (decode (bytes_of (data_of «data».now))) }
{
    if byte_at(data, 0) == TYPE_FRAME {
        type_refusal(priority, data)
    } else {
        Err(Refusal::TypeNotKnown)
    }
}

// A remote frame, at any address.
pub fn request_refusal(priority: u32) -> Result<(), Refusal>
    ensures { code_in result ≡ request_refusal priority }
{
    if priority == LOW {
        Ok(())
    } else {
        Err(Refusal::WrongPriority)
    }
}

// Any frame, by the type handed in, or none.
pub fn judge(kind: u32, identifier: u32, remote: u32, data: &[u8]) -> Result<(), Refusal>
    ensures { code_in result ≡ reading_number (reading kind identifier remote «data».now) }
{
    frame_refusal(kind, identifier, remote, data.len())?;
    let priority = identifier / 512;
    if remote == 1 {
        request_refusal(priority)
    } else {
        command_refusal(kind, priority, data)
    }
}

// Of an address with no type: only the type request and H'FF' can pass.
pub fn refusal_unlisted(identifier: u32, remote: u32, data: &[u8]) -> Result<(), Refusal>
    ensures { code_in result ≡ reading_number (reading no_type identifier remote «data».now) }
{
    form_refusal(identifier, remote, data.len())?;
    let priority = identifier / 512;
    if remote == 1 {
        request_refusal(priority)
    } else {
        untyped_refusal(priority, data)
    }
}
