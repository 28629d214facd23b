// Words of a line, and the numbers that words are. Every read is guarded: past the end of a text there is nothing.

// Every number of a line is below it.
const BEYOND: u64 = 1099511627776;

// The part from `from` to before `to`; nothing where the text has no such part.
pub(crate) fn part(s: &[u8], from: usize, to: usize) -> &[u8] {
    s.get(from..to).unwrap_or(&[])
}

// The place `n` bytes on. It wraps where no text reaches.
pub(crate) fn past(at: usize, n: usize) -> usize {
    at.wrapping_add(n)
}

// The first place from `at` on that has the byte `stop`, or else the end.
pub(crate) fn find(s: &[u8], at: usize, stop: u8) -> usize {
    let rest = part(s, at, s.len());
    let n = rest.iter().position(|b| *b == stop);
    past(at, n.unwrap_or(rest.len()))
}

// What begins at `at` and ends before the byte `stop`.
fn until(s: &[u8], at: usize, stop: u8) -> &[u8] {
    part(s, at, find(s, at, stop))
}

// The word that begins at `at`.
pub(crate) fn word(s: &[u8], at: usize) -> &[u8] {
    until(s, at, b' ')
}

// Where the next word begins: a space is passed over.
pub(crate) fn after(at: usize, w: &[u8]) -> usize {
    past(past(at, w.len()), 1)
}

// The digit that a byte stands for in a base, 10 or 16.
fn digit(b: u8, base: u64) -> Option<u64> {
    let d = match b {
        b'0'..=b'9' => (b - b'0') as u64,
        b'A'..=b'F' => (b - b'A') as u64 + 10,
        _ => return None,
    };
    if d < base { Some(d) } else { None }
}

// The number with one digit more.
fn with_digit(n: u64, base: u64, b: u8) -> Option<u64> {
    let more = n.checked_mul(base)?.checked_add(digit(b, base)?)?;
    if more < BEYOND { Some(more) } else { None }
}

// The number that a word is.
pub(crate) fn number(w: &[u8], base: u64) -> Option<u64> {
    if w.is_empty() {
        return None;
    }
    let mut n = 0;
    for b in w {
        n = with_digit(n, base, *b)?;
    }
    Some(n)
}

// Which item of a list a word is. The items stand one after the other, with / between them; the first is number 0.
pub(crate) fn named(list: &[u8], w: &[u8]) -> Option<u64> {
    list.split(|b| *b == b'/')
        .position(|item| item == w)
        .map(|n| n as u64)
}

// The item of a number, nothing where the list has none.
pub(crate) fn item(list: &[u8], number: u16) -> &[u8] {
    list.split(|b| *b == b'/')
        .nth(number as usize)
        .unwrap_or(&[])
}
