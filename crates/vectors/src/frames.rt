// What the reader and the writer make of frames, by the calls that C has.
use crate::answers::{Words, add, add_byte, add_bytes, add_item, refused_with, said, say};
use crate::text::{part, past};
use crate::words::{FLAGS, PRIORITIES, Reader};

// A result word from here on holds a refusal, a 9 with its byte, in these units.
const REFUSAL: u32 = 65536;

// What is shown as a number where a frame is read and written as another: no refusal has this number.
const CHANGED: u16 = 100;

// Identifiers of address H'2A' at lowest and highest priority, and at those that no frame has.
const LOW: u32 = 1620;

const HIGH: u32 = 84;

const SECOND: u32 = 596;

const THIRD: u32 = 1108;

// A type that is none.
const OTHER_TYPE: u32 = 0x0B;

// A frame that is read, and what was read written: the same frame, or another.
#[derive(Clone, Copy, PartialEq, Eq)]
enum Rewritten {
    Kept,
    Changed,
}

// A refusal as one number, a 9 with its byte, as a result word of C holds it.
type Code = u16;

fn done(word: u32) -> Result<(), Code> {
    match (word / REFUSAL) as u16 {
        0 => Ok(()),
        code => Err(code),
    }
}

// A message, and a frame, in the layout of docs/INTERFACE.md.
fn message_of(kind: u32, identifier: u32, remote: u32, data: &[u8]) -> Result<[u8; 20], Code> {
    let mut message = [0u8; 20];
    done(velbus::velbus_read(kind, identifier, remote, data, &mut message))?;
    Ok(message)
}

fn frame_of(kind: u32, message: &[u8; 20]) -> Result<[u8; 12], Code> {
    let mut frame = [0u8; 12];
    done(velbus::velbus_write(kind, message, &mut frame))?;
    Ok(frame)
}

// A frame in the layout of docs/INTERFACE.md: identifier, remote flag, count, and the data with zeros after them.
fn laid(identifier: u32, remote: u32, data: &[u8]) -> [u8; 12] {
    let head = [
        (identifier % 256) as u8,
        (identifier / 256 % 256) as u8,
        (remote % 256) as u8,
        (data.len() % 256) as u8,
    ];
    let mut out = [0u8; 12];
    laws::copy_in(&mut out, 0, &head);
    laws::copy_in(&mut out, 4, data);
    out
}

fn try_frame(kind: u32, identifier: u32, remote: u32, data: &[u8]) -> Result<Rewritten, Code> {
    let message = message_of(kind, identifier, remote, data)?;
    if frame_of(kind, &message) == Ok(laid(identifier, remote, data)) {
        Ok(Rewritten::Kept)
    } else {
        Ok(Rewritten::Changed)
    }
}

pub(crate) fn read(r: Reader, data: &[u8]) -> Words {
    match try_frame(r.a, r.b, r.c, data) {
        Ok(Rewritten::Kept) => say(b" kept"),
        Ok(Rewritten::Changed) => say(b" changed"),
        Err(code) => refused_with(code),
    }
}

// What comes of reading as one number: that of the refusal, 0 for kept.
fn shown(tried: Result<Rewritten, Code>) -> u16 {
    match tried {
        Ok(Rewritten::Kept) => 0,
        Ok(Rewritten::Changed) => CHANGED,
        Err(code) => code,
    }
}

// The same of a frame with one byte after the data.
fn ended(r: Reader, data: &[u8], last: u8) -> Result<Rewritten, Code> {
    let mut room = [0u8; 9];
    laws::copy_in(&mut room, 0, data);
    laws::copy_in(&mut room, data.len(), &[last]);
    try_frame(r.a, r.b, r.c, part(&room, 0, past(data.len(), 1)))
}

// What comes of all so far, kept ones left out, and of one more that is not kept.
fn alike(others: Result<Rewritten, Code>, one: Result<Rewritten, Code>) -> Result<Rewritten, Code> {
    if others == Ok(Rewritten::Kept) || others == one {
        one
    } else {
        Ok(Rewritten::Changed)
    }
}

// Each value of a byte after the data: with which of them the frame is kept, and what comes of all others.
pub(crate) fn each(r: Reader, data: &[u8]) -> Words {
    let mut kept = say(b" kept with");
    let mut others = Ok(Rewritten::Kept);
    for last in 0..=u8::MAX {
        match ended(r, data, last) {
            Ok(Rewritten::Kept) => kept = add_byte(kept, last),
            one => others = alike(others, one),
        }
    }
    add(add(kept, b" else"), said(&refused_with(shown(others))))
}

// What comes of reading, without the byte of a 9, which no layout is refused for.
fn number(kind: u32, identifier: u32, remote: u32, data: &[u8]) -> u8 {
    (shown(try_frame(kind, identifier, remote, data)) % 256) as u8
}

// The data with the last byte left out.
fn less(kind: u32, identifier: u32, data: &[u8]) -> u8 {
    let n = data.len().wrapping_sub(1);
    number(kind, identifier, 0, part(data, 0, n))
}

// The data with a byte more.
fn more(kind: u32, identifier: u32, data: &[u8]) -> u8 {
    let mut room = [0u8; 9];
    laws::copy_in(&mut room, 0, data);
    number(kind, identifier, 0, part(&room, 0, past(data.len(), 1)))
}

// What comes at address H'2A', at the first and at the last; at the other priority, with bit SID0, beyond all identifiers; with a byte
// less and with a byte more, with remote flags 1 and 2, at the priorities that no frame has, for a type that is none.
fn around(kind: u32, own: u32, data: &[u8]) -> [u8; 13] {
    [
        number(kind, own, 0, data),
        number(kind, own.wrapping_sub(HIGH), 0, data),
        number(kind, own.wrapping_add(426), 0, data),
        number(kind, (LOW + HIGH).wrapping_sub(own), 0, data),
        number(kind, own.wrapping_add(1), 0, data),
        number(kind, 2048, 0, data),
        less(kind, own, data),
        more(kind, own, data),
        number(kind, own, 1, data),
        number(kind, own, 2, data),
        number(kind, SECOND, 0, data),
        number(kind, THIRD, 0, data),
        number(OTHER_TYPE, own, 0, data),
    ]
}

// What is to come of a layout of n bytes: 2 where a byte less is none, or a byte more makes nine.
fn documented_as(n: usize) -> [u8; 13] {
    let less = if n == 1 { 2 } else { 7 };
    let more = if n == 8 { 2 } else { 7 };
    [0, 0, 0, 8, 17, 1, less, more, 2, 2, 3, 3, 4]
}

// A layout of the documents, at its priority. Where something else comes than is to come, that is shown.
pub(crate) fn documented(r: Reader, data: &[u8]) -> Words {
    let got = around(r.a, r.b, data);
    let expected = documented_as(data.len());
    if got == expected {
        return say(b" done");
    }
    add_bytes(say(b""), &got)
}

// How many bytes a message has without the zeros at its end.
fn used(message: &[u8; 20]) -> usize {
    message
        .iter()
        .rposition(|b| *b != 0)
        .map_or(0, |last| past(last, 1))
}

// The message that a frame is read as, in the layout of docs/INTERFACE.md, without the zeros at its end.
pub(crate) fn layout(r: Reader, data: &[u8]) -> Words {
    match message_of(r.a, r.b, r.c, data) {
        Ok(message) => add_bytes(say(b""), part(&message, 0, used(&message))),
        Err(code) => refused_with(code),
    }
}

// The words for an identifier and a remote flag; a frame that is written has an even identifier.
fn head(identifier: u16, remote: u8) -> Words {
    let address = add_byte(say(b""), (identifier / 2 % 256) as u8);
    let priority = add_item(address, &PRIORITIES, identifier / 512 + identifier % 2 * 8);
    if remote == 0 {
        return priority;
    }
    add_item(priority, &FLAGS, laws::wide16(remote))
}

// Where the data of a frame end in its layout.
fn data_end(count: u8) -> usize {
    past(4, count as usize)
}

// A frame, in words; past the count of its data there are zeros.
fn framed(f: &[u8; 12]) -> Words {
    let end = data_end(f[3]);
    let w = add_bytes(head(laws::number16(f[0], f[1]), f[2]), part(f, 4, end));
    if part(f, end, 12) == part(&[0; 12], end, 12) {
        return w;
    }
    add(w, b" and more")
}

// The frame that a message is written as; zeros at its end may be left out.
pub(crate) fn write(r: Reader, message: &[u8]) -> Words {
    if message.len() > 20 {
        return say(b" too long");
    }
    let mut whole = [0u8; 20];
    laws::copy_in(&mut whole, 0, message);
    match frame_of(r.a, &whole) {
        Ok(frame) => framed(&frame),
        Err(code) => refused_with(code),
    }
}
