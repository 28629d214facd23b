// The writer of records.
ghost use Rattle.std.specs.Prelude.{true, ◌≡◌, ◌≤◌, length};
ghost use Rattle.std.proofs.lemmas.List.Edits.{sets};
ghost use Rattle.laws.specs.Codes.{coded};
ghost use Rattle.recording.specs.Limits.{in_range};
ghost use Rattle.recorder.specs.Write.{record_bytes, put_answer, put_bytes};

use groups::{number_size, put_number};
use laws::{MOST_IDENTIFIER, Refusal, copy_in};
use recording::{MOST_COUNT, MOST_GAP, MOST_REMOTE};

// Whether every number of a record is in its range.
fn in_range(gap: u64, identifier: u32, remote: u32, count: usize) -> bool
    ensures { result ≡ in_range gap identifier remote count }
{
    if MOST_GAP < gap {
        return false;
    }
    if MOST_IDENTIFIER < identifier {
        return false;
    }
    if MOST_REMOTE < remote {
        return false;
    }
    if MOST_COUNT < count as u64 {
        return false;
    }
    true
}

// How many bytes a record takes.
fn record_size(gap: u64, identifier: u32, remote: u32, data: &[u8]) -> usize
    requires { in_range gap identifier remote (length «data».now) ≡ true }
    ensures { result ≡ length (record_bytes gap identifier remote «data».now) }
{
    let first = number_size(gap);
    let second = number_size((2 * identifier + remote) as u64);
    first + second + 1 + data.len()
}

// Fills the first bytes of `out` with the record.
fn fill(out: &mut [u8], gap: u64, identifier: u32, remote: u32, data: &[u8])
    requires data_value { in_range gap identifier remote (length «data».now) ≡ true }
    requires data_in_bounds { length (record_bytes gap identifier remote «data».now) ≤ length out.old }
    ensures { out.new ≡ sets out.old 0 (record_bytes gap identifier remote «data».now) }
{
    let a = put_number(out, 0, gap);
    let b = a + put_number(out, a, (2 * identifier + remote) as u64);
    out[b] = data.len() as u8;
    copy_in(out, b + 1, data);
}

// Puts a record at `at` in the caller's buffer, and answers how many bytes it has.
pub fn put_record(
    buf: &mut [u8],
    at: usize,
    gap: u64,
    identifier: u32,
    remote: u32,
    data: &[u8],
) -> Result<usize, Refusal>
    ensures value { coded result ≡ put_answer buf.old at gap identifier remote «data».now }
    ensures buf_after { buf.new ≡ put_bytes buf.old at gap identifier remote «data».now }
{
    if !in_range(gap, identifier, remote, data.len()) {
        return Err(Refusal::BadNumber);
    }
    let size = record_size(gap, identifier, remote, data);
    if buf.len() < at {
        return Err(Refusal::TooShort);
    }
    if buf.len() - at < size {
        return Err(Refusal::TooShort);
    }
    fill(&mut buf[at..], gap, identifier, remote, data);
    Ok(size)
}
