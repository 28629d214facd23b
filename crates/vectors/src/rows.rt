// What is put into a lent buffer. What a call does not fill stays as it was.
use crate::answers::{
    Called, Words, add, add_bytes, add_characters, refused, say, say_text, unanswered, value,
};
use crate::text::{part, past};
use crate::words::{ROOM, Reader};
use questions::AddressAsked;
use shape::NOT_HEARD;

// The characters of a name, and the entries of its row where none are named.
const NAME: usize = 16;

const NAME_ROOM: u32 = 18;

// The entries that a row may have, and what each is before; as a byte, for the listed addresses.
const ENTRIES: usize = 300;

const UNTOUCHED: u16 = 777;

const NO_MARK: u8 = 9;

// Whether of a buffer of dots only `filled`, at `from`, is changed.
pub(crate) fn only(room: &[u8; ROOM], from: usize, filled: &[u8]) -> bool {
    let mut dots = [b'.'; ROOM];
    laws::copy_in(&mut dots, from, filled);
    *room == dots
}

// What was filled, by the letter of the statement: text, or bytes.
fn shown(letter: u8, filled: &[u8]) -> Words {
    match letter {
        b'P' => say_text(filled),
        _ => add_bytes(say(b""), filled),
    }
}

// What a call made of a buffer of dots: how many bytes it put from `from` on; a refusal leaves it as it was.
pub(crate) fn room_of(letter: u8, put: Called<usize>, room: &[u8; ROOM], from: usize) -> Words {
    match put {
        Some(Ok(n)) => {
            let filled = part(room, from, past(from, n));
            and_more(shown(letter, filled), only(room, from, filled))
        }
        Some(Err(refusal)) => and_more(refused(refusal), only(room, from, b"")),
        None => unanswered(),
    }
}

// Whether the entries of a row from `from` on are as they were.
fn untouched_from(row: &[u16], from: usize) -> bool {
    row.iter().skip(from).all(|entry| *entry == UNTOUCHED)
}

// The row of a name, into the first n entries.
fn fill_name(picture: &[u8], r: Reader, row: &mut [u16], n: usize) -> Called<u16> {
    let first = row.get_mut(..n)?;
    Some(questions::name(picture, AddressAsked(r.a), r.b, first))
}

// What a call says of a buffer, and whether it left the rest of it as it was.
pub(crate) fn and_more(w: Words, kept: bool) -> Words {
    if kept {
        return w;
    }
    add(w, b" and more")
}

// How many characters are heard, and the characters; or the refusal.
pub(crate) fn name(r: Reader, picture: &[u8]) -> Words {
    let n = if r.found == 2 { NAME_ROOM } else { r.c };
    let mut row = [UNTOUCHED; ENTRIES];
    match fill_name(picture, r, &mut row, n as usize) {
        Some(Ok(heard)) => {
            let w = add_characters(value(b'n', heard), &row[0..NAME]);
            and_more(w, untouched_from(&row, NAME))
        }
        Some(Err(refusal)) => and_more(refused(refusal), untouched_from(&row, 0)),
        None => unanswered(),
    }
}

// An entry of a row after the call.
fn entry(letter: u8, filled: Called<()>, v: u16) -> Words {
    match v {
        UNTOUCHED => untouched(filled),
        NOT_HEARD => say(b" not heard"),
        _ => value(letter, v),
    }
}

// A refusal leaves the row as it was.
fn untouched(filled: Called<()>) -> Words {
    match filled {
        Some(Ok(())) => say(b" untouched"),
        Some(Err(refusal)) => refused(refusal),
        None => unanswered(),
    }
}

// The memory row, into the first n entries.
fn fill_row(picture: &[u8], at: u32, row: &mut [u16], n: usize) -> Called<()> {
    let first = row.get_mut(..n)?;
    Some(questions::memory_row(picture, AddressAsked(at), first))
}

fn entry_at(row: &[u16; ENTRIES], i: usize) -> u16 {
    if i < ENTRIES { row[i] } else { u16::MAX }
}

pub(crate) fn row(r: Reader, picture: &[u8]) -> Words {
    let mut row = [UNTOUCHED; ENTRIES];
    let filled = fill_row(picture, r.a, &mut row, r.b as usize);
    entry(b'R', filled, entry_at(&row, r.c as usize))
}

// The listed addresses, into the first n bytes.
fn fill_listed(picture: &[u8], row: &mut [u8], n: usize) -> Called<()> {
    let first = row.get_mut(..n)?;
    Some(questions::listed(picture, first))
}

fn mark(b: u8) -> u16 {
    if b == NO_MARK {
        UNTOUCHED
    } else {
        laws::wide16(b)
    }
}

pub(crate) fn listed(r: Reader, picture: &[u8]) -> Words {
    let mut row = [NO_MARK; ENTRIES];
    let filled = fill_listed(picture, &mut row, r.b as usize);
    entry(b'A', filled, mark(laws::byte_at(&row, r.a as usize)))
}
