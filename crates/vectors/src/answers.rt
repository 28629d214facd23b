// Answers in words. Each begins with a space. An answer that outgrows its room is none, and agrees with nothing.
use crate::text::{item, part, past};
use crate::words::TYPES;
use itoa::Buffer;
use laws::{Refusal, byte_at};
use shape::NOT_HEARD;

// What comes of a question: a number, None where the place is not heard, or a refusal.
pub(crate) type Answer = Result<Option<u16>, Refusal>;

// What comes of a call; None where it is not made, as it asks for more than there is room for.
pub(crate) type Called<T> = Option<Result<T, Refusal>>;

// The most bytes of an answer in words.
pub const WORDS: usize = 512;

#[derive(Drop)]
pub struct Words {
    pub bytes: [u8; WORDS],
    pub count: usize,
}

// The bytes of an answer.
pub(crate) fn said(w: &Words) -> &[u8] {
    part(&w.bytes, 0, w.count)
}

pub(crate) fn add(w: Words, s: &[u8]) -> Words {
    let mut bytes = w.bytes;
    laws::copy_in(&mut bytes, w.count, s);
    Words {
        bytes,
        count: past(w.count, s.len()),
    }
}

pub(crate) fn say(s: &[u8]) -> Words {
    add(
        Words {
            bytes: [0; WORDS],
            count: 0,
        },
        s,
    )
}

pub(crate) fn add_decimal(w: Words, n: u64) -> Words {
    let mut digits = Buffer::new();
    add(add(w, b" "), digits.format(n).as_bytes())
}

// A byte of two digits.
pub(crate) fn add_byte(w: Words, b: u8) -> Words {
    let digits = b"0123456789ABCDEF";
    let high = byte_at(digits, (b / 16) as usize);
    let low = byte_at(digits, (b % 16) as usize);
    add(w, &[b' ', high, low])
}

pub(crate) fn add_bytes(before: Words, bytes: &[u8]) -> Words {
    let mut w = before;
    for b in bytes {
        w = add_byte(w, *b);
    }
    w
}

// What stands in quotes: what can be printed, but a quote.
fn is_text(b: u8) -> bool {
    match b {
        32..=33 | 35..=126 => true,
        _ => false,
    }
}

// A byte of a text, with the quotes that begin and end there.
fn add_letter(w: Words, before: u8, b: u8, next: u8) -> Words {
    if !is_text(b) {
        return add_byte(w, b);
    }
    let from = if is_text(before) { 2 } else { 0 };
    let to = if is_text(next) { 3 } else { 4 };
    add(w, part(&[b' ', b'"', b, b'"'], from, to))
}

pub(crate) fn say_text(text: &[u8]) -> Words {
    let mut w = say(b"");
    let mut before = 0;
    for (i, b) in text.iter().enumerate() {
        w = add_letter(w, before, *b, byte_at(text, i + 1));
        before = *b;
    }
    w
}

// The letter that a number of a row stands for; none, which is no text, where it is not heard.
fn letter_of(n: u16) -> u8 {
    if n < NOT_HEARD { (n % 256) as u8 } else { 0 }
}

fn letter_at(row: &[u16], i: usize) -> u8 {
    if i < row.len() { letter_of(row[i]) } else { 0 }
}

fn add_character(w: Words, before: u8, n: u16, next: u8) -> Words {
    if n < NOT_HEARD {
        return add_letter(w, before, letter_of(n), next);
    }
    add(w, b" --")
}

// The characters of a row: texts and bytes, and two dashes for one that is not heard.
pub(crate) fn add_characters(begun: Words, row: &[u16]) -> Words {
    let mut w = begun;
    let mut before = 0;
    for (i, n) in row.iter().enumerate() {
        w = add_character(w, before, *n, letter_at(row, i + 1));
        before = letter_of(*n);
    }
    w
}

// A refusal as one number, a 9 with its byte.
pub(crate) fn refused_with(code: u16) -> Words {
    let w = add_decimal(say(b" refused"), repair::number_in(code) as u64);
    let byte = repair::byte_in(code);
    if byte == 0 {
        return w;
    }
    add_decimal(add(w, b" at byte"), byte as u64)
}

pub(crate) fn refused(refusal: Refusal) -> Words {
    refused_with(refusal.code())
}

// Where there is no refusal to tell of: a call is not made, or calls that are to be refused alike are not. No refusal has this number.
pub(crate) fn unanswered() -> Words {
    say(b" refused 255")
}

pub(crate) fn outcome(done: Result<(), Refusal>) -> Words {
    match done {
        Ok(()) => say(b" done"),
        Err(refusal) => refused(refusal),
    }
}

// The item of a list, after a space.
pub(crate) fn add_item(w: Words, list: &[u8], v: u16) -> Words {
    add(add(w, b" "), item(list, v))
}

fn say_item(list: &[u8], v: u16) -> Words {
    add_item(say(b""), list, v)
}

// What a cell holds.
fn cell(v: u16) -> Words {
    if v < 256 {
        return add_byte(say(b""), v as u8);
    }
    add_decimal(say(b" beyond"), v as u64)
}

// A value, by the letter of its question.
pub(crate) fn value(letter: u8, v: u16) -> Words {
    match letter {
        b'T' => say_item(&TYPES, v),
        b'L' => say_item(b"off/on/slow/fast/very fast", v),
        b'I' => say_item(b"off/up/down", v),
        b'A' => say_item(b"no/yes", v),
        b'Q' => say_item(b"wrong/right", v),
        b'n' => add(add_decimal(say(b""), v as u64), b" heard"),
        b'q' => add(add_decimal(say(b""), v as u64), b" reads"),
        b'C' | b'R' => cell(v),
        _ => add_decimal(say(b""), v as u64),
    }
}

pub(crate) fn answer(letter: u8, a: Answer) -> Words {
    match a {
        Ok(Some(v)) => value(letter, v),
        Ok(None) => say(b" not heard"),
        Err(refusal) => refused(refusal),
    }
}
