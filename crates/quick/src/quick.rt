// The quick way to a record: where the longest record has room no end needs a test, and a gap is read in place, of however many groups.
// In any doubt the way is not taken, and the general way judges from the record's first byte on.
ghost use Rattle.std.specs.Prelude.{◌≡◌, ◌+◌, ◌-◌, ◌<◌, ◌≤◌, length, get_or, IfSome, Some, Ok};
ghost use Rattle.recording.specs.Limits.{most_gap, longest};
ghost use Rattle.groups.specs.Number.{number_at};
ghost use Rattle.recording.specs.Record.{read_record};

use groups::wide;
use laws::MOST_BYTES;
use recording::{MOST_WORD, Record};

// The number at `at`, of at most `most`, and the offset past it, where it has one group or two.
fn short_number(s: &[u8], at: usize, most: u32) -> Option<(u32, usize)>
    requires at_in_bounds { at + 1 < length s.now }
    requires le_most { 128 ≤ most }
    ensures { IfSome result (λ read. Ok (read.0, read.1 - at) ≡ number_at s.now at most) }
{
    let b = s[at] as u32;
    let next = at + 1;
    if b < 128 {
        return Some((b, next));
    }
    let low = b - 128;
    let high = s[next] as u32;
    if high == 0 {
        return None;
    }
    if 128 <= high {
        return None;
    }
    if (most - low) / 128 < high {
        return None;
    }
    Some((low + 128 * high, next + 1))
}

// The gap that ends before `next` and whose last group is `last`, where that is the shortest form.
fn shortest(value: u64, last: u64, next: usize) -> Option<(u64, usize)>
    ensures { IfSome result (λ read. (read.0 ≡ value) × (read.1 ≡ next) × (0 < last)) }
{
    if last == 0 {
        return None;
    }
    Some((value, next))
}

// The gap at `at`, and the offset past it, where it has three groups to five: its first two bytes are a and b.
fn long_gap(s: &[u8], at: usize, a: u64, b: u64) -> Option<(u64, usize)>
    requires at_in_bounds { at + 5 ≤ length s.now }
    requires a_value { (a ≡ get_or s.now at 0) × (128 ≤ a) × (a < 256) }
    requires b_value { (b ≡ get_or s.now (at + 1) 0) × (128 ≤ b) × (b < 256) }
    ensures { IfSome result (λ read. Ok (read.0, read.1 - at) ≡ number_at s.now at most_gap) }
{
    let two = a - 128 + 128 * (b - 128);
    let c = wide(s[at + 2]);
    if c < 128 {
        return shortest(two + 16384 * c, c, at + 3);
    }
    let three = two + 16384 * (c - 128);
    let d = wide(s[at + 3]);
    if d < 128 {
        return shortest(three + 2097152 * d, d, at + 4);
    }
    let e = wide(s[at + 4]);
    if e < 128 {
        return shortest(three + 2097152 * (d - 128) + 268435456 * e, e, at + 5);
    }
    None
}

// The gap at `at`, and the offset past it.
fn quick_gap(s: &[u8], at: usize) -> Option<(u64, usize)>
    requires { at + 5 ≤ length s.now }
    ensures { IfSome result (λ read. Ok (read.0, read.1 - at) ≡ number_at s.now at most_gap) }
{
    let first = wide(s[at]);
    if first < 128 {
        return Some((first, at + 1));
    }
    let second = wide(s[at + 1]);
    if second < 128 {
        return shortest(first - 128 + 128 * second, second, at + 2);
    }
    long_gap(s, at, first, second)
}

// The record at `at`.
pub(crate) fn quick_record(s: &[u8], at: usize) -> Option<Record>
    requires { at + longest ≤ length s.now }
    ensures { IfSome result (λ found. Ok (Some found) ≡ read_record s.now at) }
{
    let (gap, word_at) = quick_gap(s, at)?;
    let (word, count_at) = short_number(s, word_at, MOST_WORD as u32)?;
    let len = s[count_at] as usize;
    if MOST_BYTES < len {
        return None;
    }
    let start = count_at + 1;
    Some(Record {
        gap,
        identifier: word / 2,
        remote: word % 2,
        start,
        len,
        next: start + len,
    })
}
