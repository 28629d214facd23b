// A bench module to teach on, for the classroom: reads a recording of commands from standard input, and writes to standard output a recording of the
// commands that the bench took, each with the bench's replies after it. A command that is refused is told on standard error, and is not written.
#![tactic(auto)]

use laws::Refusal;
use recording::{Fault, Record};
use std::env::{Env, FillError};
use std::fs::{File, Files};
use std::io::{self, Read};

// Where no argument names them: the address, the map version and the build. A cell then holds its own location.
const ADDRESS: u32 = 0x2A;

const MAP_VERSION: u8 = 1;

const BUILD_YEAR: u8 = 12;

const BUILD_WEEK: u8 = 5;

// A frame in the reply buffer, and the room for the most replies.
const FRAME: usize = codec::FRAME_SIZE as usize;

const REPLIES: usize = 64 * FRAME;

// The most bytes of a lesson.
const LESSON: usize = 65536;

// The room for a command's record and those of its replies.
const RECORDS: usize = 4096;

// A lesson has no more records than bytes.
const MOST_RECORDS: u64 = 65536;

// The longest path that can be named.
const PATH: usize = 4096;

// ---- the arguments: the address, in hexadecimal, and a file of 256 bytes

// What a hexadecimal digit stands for; 16 where it is none.
fn digit(c: u8) -> u32 {
    if c < b'0' {
        return 16;
    }
    if c <= b'9' {
        return (c - b'0') as u32;
    }
    if c < b'A' {
        return 16;
    }
    if c <= b'F' {
        return (c - b'A') as u32 + 10;
    }
    16
}

// Two hexadecimal digits; no address where they are none.
fn address_in(text: &[u8]) -> u32 {
    if text.len() != 2 {
        return u32::MAX;
    }
    let high = digit(text[0]);
    let low = digit(text[1]);
    if high > 15 {
        return u32::MAX;
    }
    if low > 15 {
        return u32::MAX;
    }
    16 * high + low
}

fn address_named(rt: &impl Env) -> u32 {
    let mut text = [0u8; 16];
    match rt.arg(1, &mut text) {
        Ok(n) => address_in(&text[..n]),
        Err(FillError::NotPresent) => ADDRESS,
        Err(FillError::TooLong) => u32::MAX,
    }
}

// Each cell's own location.
fn own_locations() -> [u8; 256] {
    let mut cells = [0u8; 256];
    for l in 0..=u8::MAX {
        cells[l as usize] = l;
    }
    cells
}

// The cells in the file of a path; one with fewer than 256 bytes has none.
fn read_file<R: Files>(rt: &R, path: &[u8], cells: &mut [u8; 256]) -> io::Result<()> {
    let Ok(path) = str::from_utf8(path) else {
        return Err(io::Error::from(io::ErrorKind::InvalidFilename));
    };
    File::open(rt, path)?.read_exact(cells)
}

// The cells of the file that is named, where one is, and whether they could be read.
fn read_cells<R: Env + Files>(rt: &R, cells: &mut [u8; 256]) -> bool {
    let mut path = [0u8; PATH];
    match rt.arg(2, &mut path) {
        Ok(n) => read_file(rt, &path[..n], cells).is_ok(),
        Err(FillError::NotPresent) => true,
        Err(FillError::TooLong) => false,
    }
}

// ---- one command

// A refusal, with its byte where it has one: `bench: record 3 refused 9 at byte 2`.
fn tell_refusal(rt: &impl Eprint, record: u64, refusal: Refusal) -> io::Result<()> {
    eprintln!(rt; "bench: record {record} refused {refusal}")
}

// A record after the first `at` bytes of the buffer; how many bytes there are then.
fn put_after(
    out: &mut [u8],
    at: usize,
    gap: u64,
    identifier: u32,
    remote: u32,
    data: &[u8],
) -> usize {
    let Ok(n) = recorder::put_record(out, at, gap, identifier, remote, data) else {
        return at;
    };
    at.wrapping_add(n)
}

// The reply whose frame lies at `from`, as a record after the first `at` bytes of the buffer; how many bytes there are then.
fn put_reply(out: &mut [u8], at: usize, replies: &[u8], from: usize) -> usize {
    if replies.len() < FRAME {
        return at;
    }
    if replies.len() - FRAME < from {
        return at;
    }
    let identifier = laws::number16(replies[from], replies[from + 1]) as u32;
    let remote = laws::wide32(replies[from + 2]);
    let count = laws::wide32(replies[from + 3]) as usize;
    if count > 8 {
        return at;
    }
    let start = from + 4;
    let end = start + count;
    put_after(out, at, 0, identifier, remote, &replies[start..end])
}

// So many replies, one after the other.
fn put_replies(out: &mut [u8], at: usize, replies: &[u8], count: u16) -> usize {
    let mut end = at;
    for i in 0..count {
        end = put_reply(out, end, replies, FRAME * i as usize);
    }
    end
}

// Whether all of it was written.
fn put_out(rt: &impl Print, out: &[u8], end: usize) -> bool {
    match out.get(..end) {
        Some(records) => rt.write_all(records).is_ok(),
        None => false,
    }
}

// A command for the bench: it and its replies go to standard output, its refusal to standard error. Whether what was to be written could be.
fn command(
    rt: &(impl Print + Eprint),
    bench: &mut [u8],
    number: u64,
    record: Record,
    data: &[u8],
) -> io::Result<bool> {
    let mut replies = [0u8; REPLIES];
    match taking::bench_take(bench, record.identifier, record.remote, data, &mut replies) {
        Ok(count) => {
            let mut out = [0u8; RECORDS];
            let first = put_after(
                &mut out,
                0,
                record.gap,
                record.identifier,
                record.remote,
                data,
            );
            let end = put_replies(&mut out, first, &replies, count);
            Ok(put_out(rt, &out, end))
        }
        Err(refusal) => {
            tell_refusal(rt, number, refusal)?;
            Ok(true)
        }
    }
}

// ---- a lesson

// A fault of the recording: `bench: broken at byte 17 refusal 15`.
fn tell_fault(rt: &impl Eprint, fault: Fault) -> io::Result<()> {
    let refusal = fault.refusal.code();
    eprintln!(rt; "bench: broken at byte {} refusal {refusal}", fault.offset)
}

// The record at an offset; the offset of the next, where there may be one.
fn one_record(
    rt: &(impl Print + Eprint),
    bench: &mut [u8],
    lesson: &[u8],
    at: usize,
    number: u64,
) -> io::Result<Option<usize>> {
    match quick::read_record(lesson, at) {
        Ok(Some(record)) => {
            let end = record.start.wrapping_add(record.len);
            let Some(data) = lesson.get(record.start..end) else {
                return Ok(None);
            };
            if command(rt, bench, number, record, data)? {
                return Ok(Some(record.next));
            }
            eprintln!(rt; "bench: the recording could not be written")?;
        }
        Ok(None) => {}
        Err(fault) => tell_fault(rt, fault)?,
    }
    Ok(None)
}

// Every record.
fn all_records(rt: &(impl Print + Eprint), bench: &mut [u8], lesson: &[u8]) -> io::Result<()> {
    let mut at = 0;
    for record in 1..=MOST_RECORDS {
        match one_record(rt, bench, lesson, at, record)? {
            Some(next) => at = next,
            None => break,
        }
    }
    Ok(())
}

// The lesson on the input. One that could not be read to its end, or is too long, is told, and nothing is done of it.
fn teach<R: Read>(rt: &(impl Print + Eprint), input: &mut R, bench: &mut [u8]) -> io::Result<()> {
    let mut lesson = [0u8; LESSON];
    let mut more = [0u8; 1];
    let Ok(n) = inputs::read_full(input, &mut lesson) else {
        return eprintln!(rt; "bench: the lesson could not be read to its end");
    };
    match input.read(&mut more) {
        Ok(0) => all_records(rt, bench, &lesson[..n]),
        Ok(_) => eprintln!(rt; "bench: the lesson has more than {LESSON} bytes"),
        Err(_) => eprintln!(rt; "bench: the lesson could not be read to its end"),
    }
}

// The bench, made of what the arguments name.
fn begin(rt: &impl Env, bench: &mut [u8], cells: &[u8; 256]) -> Result<(), Refusal> {
    bench::bench_new(
        bench,
        address_named(rt),
        cells,
        MAP_VERSION,
        BUILD_YEAR,
        BUILD_WEEK,
    )
}

fn main(rt: HostRuntime) -> io::Result<()> {
    let mut bench = [0u8; bench::SIZE];
    let mut cells = own_locations();
    if !read_cells(&rt, &mut cells) {
        return eprintln!(rt;
            "bench: the file of cells could not be read, or has fewer than 256 bytes"
        );
    }
    match begin(&rt, &mut bench, &cells) {
        Ok(()) => teach(&rt, &mut rt.stdin(), &mut bench),
        Err(_) => { eprintln!(rt; "bench: the address is two hexadecimal digits, 01 to FF") }
    }
}
