// The writer: a message's frame, or the first refusal in document 01's order.
ghost use Rattle.std.specs.Prelude.{◌≡◌, ◌≤◌};
ghost use Rattle.laws.specs.Codes.{code_in, coded};
ghost use Rattle.frame.specs.Identifiers.{identifier_of};
ghost use Rattle.judging.specs.Reading.{own_type};
ghost use Rattle.codec.specs.Writing.{handed_refusal, type_fits, write_refusal, request_frame, command_frame, written_as, command_written, writing, frame_bytes};

use crate::encoding::encoded;
use crate::faults::fault_of;
use frame::{Address, Command, Data, LOW, Message, TYPE_FRAME, row_for};
use kinds::{NO_TYPE, handed_type};
use laws::{Refusal, either, wide32};

#[derive(Clone, Copy)]
pub struct Frame {
    pub identifier: u32,
    pub remote: u32,
    pub bytes: Data,
}

// The first test of a message: of the type handed in, before anything that the message says.
pub fn handed(kind: u32) -> Result<(), Refusal>
    ensures { code_in result ≡ handed_refusal kind 0 }
{
    if handed_type(kind) {
        Ok(())
    } else {
        Err(Refusal::BadType)
    }
}

// The type that decides: the one inside H'FF', else the one handed in.
fn own_type(kind: u32, d: Data) -> u32
    ensures { result ≡ own_type kind d }
{
    if d.1 == TYPE_FRAME { wide32(d.2) } else { kind }
}

// Whether the type inside H'FF' has a type frame of that length.
fn type_fits(d: Data) -> bool
    ensures { result ≡ type_fits d }
{
    let row = row_for(wide32(d.2), TYPE_FRAME);
    either(d.1 != TYPE_FRAME, d.0 == row.0)
}

// A command m of the bytes d, judged by the type that decides: 4, 5, 6, and 9 with its byte.
fn write_refusal(own: u32, d: Data, m: Command) -> Result<(), Refusal>
    ensures { code_in result ≡ write_refusal own d m }
{
    if !type_fits(d) {
        return Err(Refusal::BadType);
    }
    if own == NO_TYPE {
        return Err(Refusal::TypeNotKnown);
    }
    let row = row_for(own, d.1);
    if row.0 == 0 {
        return Err(Refusal::NotListed);
    }
    fault_of(own, m)
}

fn identifier_of(priority: u32, address: Address) -> u32
    requires { priority ≤ 3 }
    ensures { result ≡ identifier_of priority address }
{
    512 * priority + 2 * wide32(address.0)
}

fn request_frame(a: Address) -> Frame
    ensures { result ≡ request_frame a }
{
    Frame {
        identifier: identifier_of(LOW, a),
        remote: 1,
        bytes: Data(0, 0, 0, 0, 0, 0, 0, 0, 0),
    }
}

fn command_frame(own: u32, a: Address, d: Data) -> Frame
    ensures { result ≡ command_frame own a d }
{
    let row = row_for(own, d.1);
    Frame {
        identifier: identifier_of(row.1, a),
        remote: 0,
        bytes: d,
    }
}

// A command m, whose bytes are d.
fn written_as(kind: u32, a: Address, m: Command, d: Data) -> Result<Frame, Refusal>
    ensures { coded result ≡ written_as kind a m d }
{
    let own = own_type(kind, d);
    handed(kind)?;
    write_refusal(own, d, m)?;
    Ok(command_frame(own, a, d))
}

fn command_written(kind: u32, a: Address, m: Command) -> Result<Frame, Refusal>
    ensures { coded result ≡ command_written kind a m }
{
    written_as(kind, a, m, encoded(m))
}

fn request_written(kind: u32, a: Address) -> Result<Frame, Refusal>
    ensures { coded result ≡ writing kind a Message.TypeRequest }
{
    handed(kind)?;
    Ok(request_frame(a))
}

pub fn write(kind: u32, address: Address, message: Message) -> Result<Frame, Refusal>
    ensures { coded result ≡ writing kind address message }
{
    match message {
        Message::TypeRequest => request_written(kind, address),
        Message::Tells(m) => command_written(kind, address, m),
    }
}

// How many bytes a frame takes in a buffer.
pub const FRAME_SIZE: u16 = 12;

// Identifier low, identifier high, remote flag, count, eight data bytes.
pub fn frame_bytes(f: Frame) -> [u8; 12]
    ensures { result ≡ frame_bytes f }
{
    let d = f.bytes;
    [
        (f.identifier % 256) as u8,
        (f.identifier / 256 % 256) as u8,
        (f.remote % 256) as u8,
        (d.0 % 256) as u8,
        d.1,
        d.2,
        d.3,
        d.4,
        d.5,
        d.6,
        d.7,
        d.8,
    ]
}
