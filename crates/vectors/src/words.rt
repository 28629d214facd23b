// A question's words, taken as a pattern says. A word of a pattern stands for itself, or is one letter:
// T a type, P a priority (as the identifier of address H'2A'), A an address (as its identifier of lowest priority), F a frame without its
// data, H a hexadecimal number, D a decimal number, G a gap, B the bytes up to the end.
use crate::text::{after, find, named, number, part, past, word};
use laws::byte_at;

// The types by their numbers.
pub const TYPES: [u8; 49] = *b"untyped/01/02/VMB1BL/04/05/06/07/08/VMB2BL/VMB8IR";

// The priorities, and the remote flags, by their numbers.
pub const PRIORITIES: [u8; 21] = *b"high/second/third/low";

pub const FLAGS: [u8; 17] = *b"data/remote/flag2";

const LOWEST: u64 = 3;

// The most bytes that a question has.
pub const ROOM: usize = 128;

// The letter of the pattern; where the next word begins; how many numbers the question has so far, and these, in their order; its gap; its bytes, and how many.
#[derive(Clone, Copy)]
pub struct Reader {
    pub letter: u8,
    pub at: usize,
    pub found: u32,
    pub a: u32,
    pub b: u32,
    pub c: u32,
    pub d: u32,
    pub gap: u64,
    pub count: usize,
    pub bytes: [u8; ROOM],
}

// 512 × priority + 2 × address.
fn identifier(address: u64, priority: u64) -> Option<u64> {
    if address > 255 || priority > LOWEST {
        return None;
    }
    Some(512 * priority + 2 * address)
}

// The steps change the question as far as it is read, and answer whether they could read on: handed on by value it would be copied at every word.
fn with_number(r: &mut Reader, n: u64, next: usize) -> Option<()> {
    let Ok(n) = u32::try_from(n) else {
        return None;
    };
    r.at = next;
    let i = r.found;
    r.found = i.wrapping_add(1);
    match i {
        0 => r.a = n,
        1 => r.b = n,
        2 => r.c = n,
        _ => r.d = n,
    }
    Some(())
}

fn with_gap(r: &mut Reader, n: u64, next: usize) {
    r.gap = n;
    r.at = next;
}

// A remote flag, which is 0 where none is named.
fn take_flag(q: &[u8], r: &mut Reader) -> Option<()> {
    let at = r.at;
    let w = word(q, at);
    match named(&FLAGS, w) {
        Some(n) => with_number(r, n, after(at, w)),
        None => with_number(r, 0, at),
    }
}

// The identifier that two words are: its number, or address and priority.
fn identified(w: &[u8], v: &[u8]) -> Option<u64> {
    if w == b"identifier".as_slice() {
        return number(v, 10);
    }
    identifier(number(w, 16)?, named(&PRIORITIES, v)?)
}

// An identifier, and the remote flag.
fn take_frame(q: &[u8], r: &mut Reader) -> Option<()> {
    let w = word(q, r.at);
    let next = after(r.at, w);
    let v = word(q, next);
    with_number(r, identified(w, v)?, after(next, v))?;
    take_flag(q, r)
}

// Bytes more; with more than there is room for, the question cannot be read.
fn with_bytes(r: &mut Reader, bytes: &[u8], next: usize) -> Option<()> {
    let count = r.count;
    laws::copy_in(&mut r.bytes, count, bytes);
    r.count = past(count, bytes.len());
    r.at = next;
    if r.count > ROOM { None } else { Some(()) }
}

// Text between two quotes: a word ends with the second.
fn take_quoted(q: &[u8], r: &mut Reader) -> Option<()> {
    let from = past(r.at, 1);
    let to = find(q, from, b'"');
    let w = word(q, to);
    if w.len() != 1 {
        return None;
    }
    with_bytes(r, part(q, from, to), after(to, w))
}

fn take_byte(q: &[u8], r: &mut Reader) -> Option<()> {
    let at = r.at;
    let w = word(q, at);
    let Ok(b) = u8::try_from(number(w, 16)?) else {
        return None;
    };
    with_bytes(r, &[b], after(at, w))
}

fn take_item(q: &[u8], r: &mut Reader) -> Option<()> {
    if byte_at(q, r.at) == b'"' {
        take_quoted(q, r)
    } else {
        take_byte(q, r)
    }
}

// No question that can be read has more items than there is room for bytes.
fn take_list(q: &[u8], r: &mut Reader) -> Option<()> {
    for _ in 0..ROOM {
        if r.at >= q.len() {
            break;
        }
        take_item(q, r)?;
    }
    Some(())
}

fn take_itself(r: &mut Reader, w: &[u8], p: &[u8]) -> Option<()> {
    if w != p {
        return None;
    }
    r.at = after(r.at, w);
    Some(())
}

// The number that a word is, by the letter for it.
fn value(letter: u8, w: &[u8]) -> Option<u64> {
    match letter {
        b'T' => named(&TYPES, w),
        b'P' => identifier(0x2A, named(&PRIORITIES, w)?),
        b'A' => identifier(number(w, 16)?, LOWEST),
        b'H' => number(w, 16),
        _ => number(w, 10),
    }
}

// What one word of a pattern stands for.
fn take(q: &[u8], p: &[u8], r: &mut Reader) -> Option<()> {
    let letter = byte_at(p, 0);
    let at = r.at;
    let w = word(q, at);
    match letter {
        b'T' | b'P' | b'A' | b'H' | b'D' => with_number(r, value(letter, w)?, after(at, w)),
        b'G' => Some(with_gap(r, value(letter, w)?, after(at, w))),
        b'F' => take_frame(q, r),
        b'B' => take_list(q, r),
        _ => take_itself(r, w, p),
    }
}

// A question of which nothing is read yet, by a pattern that has this letter.
fn unread(letter: u8) -> Reader {
    Reader {
        letter,
        at: 0,
        found: 0,
        a: 0,
        b: 0,
        c: 0,
        d: 0,
        gap: 0,
        count: 0,
        bytes: [0; ROOM],
    }
}

// The words of a question by a pattern, with spaces after them. All of it is read where the next word would begin just past its end.
pub(crate) fn take_all(q: &[u8], pattern: &[u8], letter: u8) -> Option<Reader> {
    let mut r = unread(letter);
    for p in pattern.split(|b| *b == b' ') {
        if p.is_empty() {
            break;
        }
        take(q, p, &mut r)?;
    }
    if r.at == after(0, q) { Some(r) } else { None }
}
