// The reader of records: gap, word (2 × identifier + remote flag), count, data.
ghost use Rattle.std.specs.Prelude.{◌≡◌, length};
ghost use Rattle.laws.specs.Refusals.{cut_off};
ghost use Rattle.groups.specs.Number.{number_at};
ghost use Rattle.recording.specs.Record.{told_fault, told, past, read_count, read_word, read_record};

use crate::limits::{MOST_COUNT, MOST_GAP, MOST_WORD};
use groups::NumberFault;
use laws::Refusal;
use numbers::number;

// A record that was read: its data are the `len` bytes from `start`, and `next` is past it.
#[derive(Clone, Copy, Debug, PartialEq, Eq)]
pub struct Record {
    pub gap: u64,
    pub identifier: u32,
    pub remote: u32,
    pub start: usize,
    pub len: usize,
    pub next: usize,
}

// Why no record is read, and the offset where that shows.
#[derive(Clone, Copy, Debug, PartialEq, Eq)]
pub struct Fault {
    pub refusal: Refusal,
    pub offset: usize,
}

// The input ends inside a record.
fn cut_off(s: &[u8]) -> Fault
    ensures { told_fault result ≡ (cut_off, length s.now) }
{
    Fault {
        refusal: Refusal::CutOff,
        offset: s.len(),
    }
}

// The number at `at`, of at most `most`, and the offset past it.
fn number_and_next(s: &[u8], at: usize, most: u64) -> Result<(u64, usize), Fault>
    ensures { told result ≡ past s.now at (number_at s.now at most) }
{
    match number(s, at, most) {
        Ok((value, groups)) => Ok((value, at + groups)),
        Err(NumberFault::Ends) => Err(cut_off(s)),
        Err(NumberFault::Bad(offset)) => Err(Fault {
            refusal: Refusal::BadNumber,
            offset,
        }),
    }
}

// The count and the data, at `at`.
fn read_count(
    s: &[u8],
    gap: u64,
    identifier: u32,
    remote: u32,
    at: usize,
) -> Result<Option<Record>, Fault>
    ensures { told result ≡ read_count s.now gap identifier remote at }
{
    let (count, start) = number_and_next(s, at, MOST_COUNT)?;
    let len = count as usize;
    if s.len() - start < len {
        return Err(cut_off(s));
    }
    Ok(Some(Record {
        gap,
        identifier,
        remote,
        start,
        len,
        next: start + len,
    }))
}

// The word, and what follows it, at `at`.
fn read_word(s: &[u8], gap: u64, at: usize) -> Result<Option<Record>, Fault>
    ensures { told result ≡ read_word s.now gap at }
{
    let (word, next) = number_and_next(s, at, MOST_WORD)?;
    read_count(s, gap, (word / 2) as u32, (word % 2) as u32, next)
}

// What stands at `at`, wherever it ends: a record, or none at the input's end. Every number is read by its groups, and every end is tested.
pub fn read_any(s: &[u8], at: usize) -> Result<Option<Record>, Fault>
    ensures { told result ≡ read_record s.now at }
{
    if s.len() <= at {
        return Ok(None);
    }
    let (gap, next) = number_and_next(s, at, MOST_GAP)?;
    read_word(s, gap, next)
}
