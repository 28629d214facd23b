// What is made of records and recordings, and pictures that are too short for them.
use crate::answers::{Called, Words, add, add_decimal, refused, said, say, unanswered};
use crate::rows::room_of;
use crate::text::{part, past};
use crate::words::{ROOM, Reader};
use laws::Refusal;
use questions::{AddressAsked, LocationAsked};
use recording::Fault;
use replay::Stream;

// Where a record is put of which no place is named, and the bytes of the buffer.
const PLACE: u32 = 2;

const RECORD_ROOM: u32 = 32;

// Puts a record at `r.a` into the first `r.b` bytes.
fn put_into(room: &mut [u8], r: Reader, data: &[u8]) -> Called<usize> {
    let first = room.get_mut(..r.b as usize)?;
    Some(recorder::put_record(first, r.a as usize, r.gap, r.c, r.d, data))
}

// Whether bytes are one record, with these numbers and this many bytes of data.
fn is_record(s: &[u8], r: Reader) -> bool {
    match quick::read_record(s, 0) {
        Ok(Some(record)) => {
            record.gap == r.gap
                && record.identifier == r.c
                && record.remote == r.d
                && record.len == r.count
                && past(record.start, record.len) == s.len()
                && record.next == s.len()
        }
        _ => false,
    }
}

// A record, put into dots and read again.
pub(crate) fn put(r: Reader, data: &[u8]) -> Words {
    let at = r.a as usize;
    let mut room = [b'.'; ROOM];
    let put = put_into(&mut room, r, data);
    let w = room_of(b'p', put, &room, at);
    match put {
        Some(Ok(n)) if !is_record(part(&room, at, past(at, n)), r) => {
            add(w, b" and reads as another")
        }
        _ => w,
    }
}

// A record of which no place is named.
pub(crate) fn record(mut r: Reader, data: &[u8]) -> Words {
    r.c = r.a;
    r.d = r.b;
    r.a = PLACE;
    r.b = RECORD_ROOM;
    put(r, data)
}

fn broken(fault: Fault) -> Words {
    let w = add_decimal(say(b" broken at byte"), fault.offset as u64);
    add_decimal(add(w, b" refusal"), fault.refusal.code() as u64)
}

// What stands first in a recording.
pub(crate) fn recording(s: &[u8]) -> Words {
    match quick::read_record(s, 0) {
        Ok(Some(_)) => say(b" a record"),
        Ok(None) => say(b" at its end"),
        Err(fault) => broken(fault),
    }
}

// Hears the first n bytes of a window in which the recording stands.
fn hear(picture: &mut [u8], s: &[u8], n: usize) -> Result<Stream, Refusal> {
    let mut window = [0u8; ROOM];
    laws::copy_in(&mut window, 0, s);
    replay::hear_part(picture, &mut window, replay::begin(), n)
}

// Puts a listing into the first n bytes.
fn list_into(picture: &[u8], room: &mut [u8], n: usize, stream: Stream) -> Called<usize> {
    let first = room.get_mut(..n)?;
    Some(texts::put_listing(picture, first, stream))
}

// What a listing is in n bytes.
fn list_in(picture: &[u8], n: usize, stream: Stream) -> Words {
    let mut room = [b'.'; ROOM];
    let put = list_into(picture, &mut room, n, stream);
    room_of(b'P', put, &room, 0)
}

// The listing, in as many bytes as it has. In one less it is refused with 13, and nothing is put. No call is made in one less than none,
// of a listing that has no room.
fn just_listed(picture: &[u8], stream: Stream) -> Words {
    let mut room = [b'.'; ROOM];
    let n = texts::put_listing(picture, &mut room, stream).unwrap_or(0);
    let less = list_in(picture, n.wrapping_sub(1), stream);
    if said(&less) == b" refused 13".as_slice() {
        return list_in(picture, n, stream);
    }
    add(less, b" in a byte less")
}

// A recording's listing, heard in a fresh picture. A part longer than its window is not heard: 13.
pub(crate) fn listing(picture: &mut [u8], s: &[u8]) -> Words {
    if let Err(refusal) = picture::fresh(picture) {
        return refused(refusal);
    }
    if hear(picture, s, ROOM + 1) != Err(Refusal::TooShort) {
        return say(b" heard past its window");
    }
    match hear(picture, s, s.len()) {
        Ok(stream) => just_listed(picture, stream),
        Err(refusal) => refused(refusal),
    }
}

// What calls on a picture are refused for; what else they are handed is wrong too.
fn refusals(picture: &mut [u8]) -> [Option<Refusal>; 9] {
    let mut room = [b'.'; ROOM];
    [
        picture::fresh(picture).err(),
        picture::hear(picture, 1621, 0, b"").err(),
        picture::step_back(picture).err(),
        questions::cell(picture, AddressAsked(256), LocationAsked(256)).err(),
        plan::plan_bytes(picture, AddressAsked(0), &mut room).err(),
        plan::right_plan_bytes(picture, AddressAsked(0), b"").err(),
        replay::hear_all(picture, b"").err(),
        hear(picture, b"", 0).err(),
        texts::put_listing(picture, &mut room, replay::begin()).err(),
    ]
}

// The one refusal of all.
fn alike(refusals: &[Option<Refusal>]) -> Option<Refusal> {
    let refusal = *refusals.first()?;
    if refusals.iter().all(|other| *other == refusal) {
        refusal
    } else {
        None
    }
}

// The first `r.a` bytes of a picture, as a picture that is too short: the one refusal of all calls.
pub(crate) fn short(r: Reader, picture: &mut [u8]) -> Words {
    let Some(first) = picture.get_mut(..r.a as usize) else {
        return unanswered();
    };
    match alike(&refusals(first)) {
        Some(refusal) => refused(refusal),
        None => unanswered(),
    }
}
