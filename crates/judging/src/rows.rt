// A frame with data judged on its bytes: by its row in the type's list, then by its fields, whose rules the writer goes by too. A field is
// read only where the length is the row's.
ghost use Rattle.std.specs.Prelude.{◌≡◌, ℕ};
ghost use Rattle.laws.specs.Codes.{code_in};
ghost use Rattle.frame.specs.Bytes.{byte, data_of, bytes_of};
ghost use Rattle.frame.specs.Messages.{location_in, time_in, type_frame, decode};
ghost use Rattle.fields.specs.Fields.{fault, field_refusal};
ghost use Rattle.judging.specs.Reading.{by_row, row_refusal};

use fields::{
    blind_status_fault, block_fault, buttons_fault, cell_fault, channel_fault, last_part_fault,
    name_asked_fault, status_asked_fault, stop_fault, timed_fault, type_short_fault,
};
use frame::{Location, TYPE_FRAME, Time, has_long, location_of, number24, row_for, time_of};
use laws::{Refusal, byte_at, wide32};

// What the command's row has against the frame, whatever its fields are: 6, 7, 8.
fn misfit(own: u32, command: u8, count: usize, priority: u32) -> Result<(), Refusal>
    ensures { code_in result ≡ by_row own command count priority 0 }
{
    let row = row_for(own, command);
    if row.0 == 0 {
        return Err(Refusal::NotListed);
    }
    if count != row.0 {
        return Err(Refusal::WrongLength);
    }
    if priority != row.1 {
        return Err(Refusal::WrongPriority);
    }
    Ok(())
}

fn location_in(data: &[u8]) -> Location
    ensures { result ≡ location_in «data».now }
{
    location_of(byte_at(data, 1), byte_at(data, 2))
}

fn time_in(data: &[u8]) -> Time
    ensures { result ≡ time_in «data».now }
{
    time_of(number24(byte_at(data, 2), byte_at(data, 3), byte_at(data, 4)))
}

// H'FF', by its shape.
fn type_fault(data: &[u8]) -> Result<(), Refusal>
    ensures { (own : ℕ) → code_in result ≡ field_refusal (fault own (type_frame «data».now)) }
{
    let own = byte_at(data, 1);
    if has_long(own) {
        Ok(())
    } else {
        type_short_fault(wide32(own), byte_at(data, 2))
    }
}

// What the fields of a frame of the type `own` are refused for, by its command; those of every command without an arm are free.
fn fault_in(own: u32, command: u8, data: &[u8]) -> Result<(), Refusal>
    requires { command ≡ byte 1 «data».now }
    ensures { code_in result ≡ field_refusal (fault own (decode (bytes_of (data_of «data».now)))) }
{
    match command {
        0x00 => buttons_fault(own, byte_at(data, 1), byte_at(data, 2), byte_at(data, 3)),
        0xFE => cell_fault(own, location_in(data)),
        0xCC => block_fault(own, location_in(data)),
        0xF0 => channel_fault(own, byte_at(data, 1)),
        0xF1 => channel_fault(own, byte_at(data, 1)),
        0xF2 => last_part_fault(own, byte_at(data, 1), byte_at(data, 5)),
        0xEF => name_asked_fault(own, byte_at(data, 1)),
        0xFA => status_asked_fault(own, byte_at(data, 1)),
        0xFD => cell_fault(own, location_in(data)),
        0xC9 => block_fault(own, location_in(data)),
        0xFC => cell_fault(own, location_in(data)),
        0xCA => block_fault(own, location_in(data)),
        0xEC => blind_status_fault(
            own,
            byte_at(data, 1),
            byte_at(data, 2),
            byte_at(data, 3),
            byte_at(data, 4),
        ),
        0x04 => stop_fault(own, byte_at(data, 1)),
        0x05 => timed_fault(own, byte_at(data, 1), time_in(data)),
        0x06 => timed_fault(own, byte_at(data, 1), time_in(data)),
        TYPE_FRAME => type_fault(data),
        _ => Ok(()),
    }
}

// A frame of the type `own`, by its command: 6, 7, 8, 9.
pub(crate) fn refusal_by_row(
    own: u32,
    command: u8,
    priority: u32,
    data: &[u8],
) -> Result<(), Refusal>
    requires { command ≡ byte 1 «data».now }
    ensures { code_in result ≡ row_refusal own priority (data_of «data».now) (decode (bytes_of (data_of «data».now))) }
{
    misfit(own, command, data.len(), priority)?;
    fault_in(own, command, data)
}
