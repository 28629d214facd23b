// The plan of reads, and proposed plans.
use crate::answers::{Called, Words, add_bytes, answer, refused, unanswered, value};
use crate::rows::{and_more, only};
use crate::text::part;
use crate::words::{ROOM, Reader};
use questions::AddressAsked;

// The plan, into the first n bytes.
fn fill(picture: &[u8], at: u32, room: &mut [u8], n: usize) -> Called<u16> {
    let first = room.get_mut(..n)?;
    Some(plan::plan_bytes(picture, AddressAsked(at), first))
}

// How many reads there are, and the bytes of their starts; a buffer of dots that was changed elsewhere is told.
fn shown(count: u16, room: &[u8; ROOM]) -> Words {
    let starts = part(room, 0, 2 * count as usize);
    let w = add_bytes(value(b'q', count), starts);
    and_more(w, only(room, 0, starts))
}

// The plan; a refusal leaves the buffer as it was.
pub(crate) fn plan(r: Reader, picture: &[u8]) -> Words {
    let mut room = [b'.'; ROOM];
    match fill(picture, r.a, &mut room, r.b as usize) {
        Some(Ok(count)) => shown(count, &room),
        Some(Err(refusal)) => and_more(refused(refusal), only(&room, 0, b"")),
        None => unanswered(),
    }
}

// What is said of a proposed plan: 1 for right, 0 for wrong.
pub(crate) fn right(r: Reader, starts: &[u8], picture: &[u8]) -> Words {
    let judged = plan::right_plan_bytes(picture, AddressAsked(r.a), starts);
    answer(b'Q', judged.map(|right| Some(right as u16)))
}
