// The listing of a picture, with the counts and the fault of the recording that it heard.
ghost use Rattle.std.specs.Prelude.{option_map, ◌≡◌, ◌≤◌, length};
ghost use Rattle.laws.specs.Codes.{coded};
ghost use Rattle.replay.specs.Window.{told_stop, told_stream};
ghost use Rattle.shape.specs.Layout.{size};
ghost use Rattle.shape.specs.Limits.{addresses};
ghost use Rattle.texts.specs.Text.{Fits, Written};
ghost use Rattle.texts.specs.Listing.{sheet_text, module_text, modules_text, fault_text, listing_text, listing_answer, listing_bytes};

use crate::lines::{put_broken_line, put_count_line, put_header, put_module_line};
use crate::sheets::{told_cells, whole_names};
use laws::{Refusal, copy_in, wide32};
use questions::AddressAsked;
use replay::{Stop, Stream};
use shape::{ADDRESSES, SIZE};

// The room that the longest listing takes: that of the longest line for each address and for three lines more.
const LINE_ROOM: usize = 65;

pub const LISTING_ROOM: usize = LINE_ROOM * (ADDRESSES as usize + 3);

// The line of a listed module.
fn put_sheet(picture: &[u8], out: &mut [u8], at: usize, address: u32, kind: u8) -> usize
    requires { Fits out.old at (sheet_text picture.now address kind) }
    ensures { Written out.old at (sheet_text picture.now address kind) out.new result }
{
    let extent = kinds::extent_of(wide32(kind));
    let names = whole_names(picture, address, extent.names);
    let cells = told_cells(picture, address, extent.cells);
    put_module_line(out, at, (address % 256) as u8, kind, names, cells)
}

// The line of the module at an address, nothing where none is listed.
fn put_module(picture: &[u8], out: &mut [u8], at: usize, address: u32) -> usize
    requires { Fits out.old at (module_text picture.now address) }
    ensures { Written out.old at (module_text picture.now address) out.new result }
{
    match questions::type_of(picture, AddressAsked(address)) {
        Ok(kind) => put_sheet(picture, out, at, address, (kind % 256) as u8),
        Err(_) => at,
    }
}

// The lines of all modules, in address order.
fn put_modules(picture: &[u8], out: &mut [u8], at: usize) -> usize
    requires { Fits out.old at (modules_text picture.now addresses) }
    ensures { Written out.old at (modules_text picture.now addresses) out.new result }
{
    let mut next = at;
    for address in 0..ADDRESSES {
        next = put_module(picture, out, next, address);
    }
    next
}

// The line of a fault, nothing where there is none.
fn put_fault(out: &mut [u8], at: usize, fault: Option<Stop>) -> usize
    requires { Fits out.old at (fault_text (option_map told_stop fault)) }
    ensures { Written out.old at (fault_text (option_map told_stop fault)) out.new result }
{
    match fault {
        Some(fault) => put_broken_line(out, at, fault.offset, fault.refusal as u64),
        None => at,
    }
}

// The whole listing, from the buffer's first byte; the answer is the place past it.
fn put_lines(picture: &[u8], out: &mut [u8], stream: Stream) -> usize
    requires { Fits out.old 0 (listing_text picture.now (told_stream stream)) }
    ensures { Written out.old 0 (listing_text picture.now (told_stream stream)) out.new result }
{
    let modules = put_header(out, 0);
    let fault = put_modules(picture, out, modules);
    let counts = put_fault(out, fault, stream.fault);
    put_count_line(out, counts, stream.heard, stream.refused)
}

// The listing in a buffer that may be too short for it: made in room of its own first, and then copied whole or not at all.
fn put_if_it_fits(picture: &[u8], out: &mut [u8], stream: Stream) -> Result<usize, Refusal>
    requires { size ≤ length picture.now }
    ensures value { coded result ≡ listing_answer picture.now out.old (told_stream stream) }
    ensures out_after { out.new ≡ listing_bytes picture.now out.old (told_stream stream) }
{
    let mut room = [0u8; LISTING_ROOM];
    let n = put_lines(picture, &mut room, stream);
    if n <= out.len() {
        copy_in(out, 0, &room[0..n]);
        return Ok(n);
    }
    Err(Refusal::TooShort)
}

// Puts the whole listing at the buffer's front. A buffer of LISTING_ROOM bytes holds any listing.
pub fn put_listing(picture: &[u8], out: &mut [u8], stream: Stream) -> Result<usize, Refusal>
    ensures value { coded result ≡ listing_answer picture.now out.old (told_stream stream) }
    ensures out_after { out.new ≡ listing_bytes picture.now out.old (told_stream stream) }
{
    if picture.len() < SIZE {
        return Err(Refusal::TooShort);
    }
    if out.len() < LISTING_ROOM {
        return put_if_it_fits(picture, out, stream);
    }
    Ok(put_lines(picture, out, stream))
}
