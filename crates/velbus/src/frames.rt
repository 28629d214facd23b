// Frames read into a lent message, and messages written into a lent frame.
ghost use Rattle.std.specs.Prelude.{◌≡◌, length};
ghost use Rattle.judging.specs.Reading.{reading};
ghost use Rattle.laws.specs.Refusals.{not_listed};
ghost use Rattle.codec.specs.Writing.{handed_refusal, writing, frame_size, frame_bytes};
ghost use Rattle.laws.specs.Copies.{copied_in};
ghost use Rattle.results.specs.Words.{refused_word, room_word};
ghost use Rattle.layouts.specs.Parts.{parts_of};
ghost use Rattle.layouts.specs.Layout.{message_size, laid_bytes, held_in};
ghost use Rattle.velbus.specs.Frames.{read_word, read_into, written_word, written_into, held_word, held_into, write_word, write_into};

use codec::{FRAME_SIZE, Frame, frame_bytes, handed};
use frame::{Address, Message};
use laws::{Refusal, copy_in};
use layouts::{MESSAGE_SIZE, held_in, laid, parts_of};
use results::{refused, room_word};

fn lay_message(message: &mut [u8], a: Address, m: Message) -> u32
    ensures value { result ≡ room_word (length message.old) message_size }
    ensures message_after { message.new ≡ copied_in message.old 0 (laid_bytes (parts_of a m)) }
{
    let room = message.len();
    let bytes = laid(parts_of(a, m));
    copy_in(message, 0, &bytes);
    room_word(room, MESSAGE_SIZE)
}

pub fn velbus_read(kind: u32, identifier: u32, remote: u32, data: &[u8], message: &mut [u8]) -> u32
    ensures value { result ≡ read_word (reading kind identifier remote «data».now) (length message.old) }
    ensures message_after { message.new ≡ read_into (reading kind identifier remote «data».now) message.old }
{
    match reader::read(kind, identifier, remote, data) {
        Ok((a, m)) => lay_message(message, a, m),
        Err(refusal) => refused(refusal.code()),
    }
}

fn lay_frame(out: &mut [u8], f: Frame) -> u32
    ensures value { result ≡ room_word (length out.old) frame_size }
    ensures out_after { out.new ≡ copied_in out.old 0 (frame_bytes f) }
{
    let room = out.len();
    let bytes = frame_bytes(f);
    copy_in(out, 0, &bytes);
    room_word(room, FRAME_SIZE)
}

fn write_message(kind: u32, a: Address, m: Message, out: &mut [u8]) -> u32
    ensures value { result ≡ written_word (writing kind a m) (length out.old) }
    ensures out_after { out.new ≡ written_into (writing kind a m) out.old }
{
    match codec::write(kind, a, m) {
        Ok(f) => lay_frame(out, f),
        Err(refusal) => refused(refusal.code()),
    }
}

// Bytes that are no message.
fn unheld_word(kind: u32) -> u32
    ensures { result ≡ refused_word (handed_refusal kind not_listed) }
{
    match handed(kind) {
        Ok(()) => refused(Refusal::NotListed.code()),
        Err(refusal) => refused(refusal.code()),
    }
}

fn write_held(kind: u32, held: Option<(Address, Message)>, out: &mut [u8]) -> u32
    ensures value { result ≡ held_word kind held (length out.old) }
    ensures out_after { out.new ≡ held_into kind held out.old }
{
    match held {
        Some((a, m)) => write_message(kind, a, m, out),
        None => unheld_word(kind),
    }
}

pub fn velbus_write(kind: u32, message: &[u8], out: &mut [u8]) -> u32
    ensures value { result ≡ write_word kind message.now (length out.old) }
    ensures out_after { out.new ≡ write_into kind message.now out.old }
{
    if message.len() < MESSAGE_SIZE as usize {
        return refused(Refusal::TooShort.code());
    }
    write_held(kind, held_in(message), out)
}
