// Reads a recording from standard input, of any length, and writes for each listed module what is to be read of it, a line each; with the argument
// --frames, the frames of those reads themselves, as a recording that is ready to be sent.
#![tactic(auto)]

use codec::Frame;
use frame::{Address, Command, Location, Message};
use places::PLACES;
use questions::AddressAsked;
use replay::Stream;
use shape::ADDRESSES;
use std::env::Env;
use std::io;
use texts::PLAN_ROOM;

// No step back is taken.
const DEPTH: u32 = 0;

// The bytes of the input that are looked at together.
const WINDOW: usize = 65536;

// No plan of any type has more starts.
const MOST_STARTS: usize = PLACES / 4;

// A record is never longer.
const RECORD_ROOM: usize = 16;

// The first bytes of a buffer, as many as there are said to be.
fn put_out(rt: &(impl Print + Eprint), out: &[u8], count: usize) -> io::Result<()> {
    let Some(bytes) = out.get(..count) else {
        return Ok(());
    };
    match rt.write_all(bytes) {
        Ok(()) => Ok(()),
        Err(_) => eprintln!(rt; "plan: the plan could not be written"),
    }
}

// The lines, in address order; an address with no module has none.
fn put_plans(rt: &(impl Print + Eprint), picture: &[u8]) -> io::Result<()> {
    for address in 0..ADDRESSES {
        put_line(rt, picture, address)?;
    }
    Ok(())
}

fn put_line(rt: &(impl Print + Eprint), picture: &[u8], address: u32) -> io::Result<()> {
    let mut out = [0u8; PLAN_ROOM];
    match texts::put_plan(picture, AddressAsked(address), &mut out) {
        Ok(count) => put_out(rt, &out, count as usize),
        Err(_) => Ok(()),
    }
}

// A frame as a record, with no gap before it.
fn put_frame(rt: &(impl Print + Eprint), frame: Frame) -> io::Result<()> {
    let bytes = frame.bytes;
    let row = [
        bytes.1, bytes.2, bytes.3, bytes.4, bytes.5, bytes.6, bytes.7, bytes.8,
    ];
    match row.get(..bytes.0) {
        Some(data) => put_record(rt, frame.identifier, frame.remote, data),
        None => Ok(()),
    }
}

fn put_record(
    rt: &(impl Print + Eprint),
    identifier: u32,
    remote: u32,
    data: &[u8],
) -> io::Result<()> {
    let mut out = [0u8; RECORD_ROOM];
    match recorder::put_record(&mut out, 0, 0, identifier, remote, data) {
        Ok(count) => put_out(rt, &out, count),
        Err(_) => eprintln!(rt; "plan: there is no room for a record"),
    }
}

// The read of a block, as the writer writes it for a module of the type.
fn put_read(rt: &(impl Print + Eprint), kind: u32, address: u8, start: u16) -> io::Result<()> {
    let message = Message::Tells(Command::BlockAsked(Location(start)));
    match codec::write(kind, Address(address), message) {
        Ok(frame) => put_frame(rt, frame),
        Err(_) => eprintln!(rt; "plan: a read could not be written"),
    }
}

fn put_reads(
    rt: &(impl Print + Eprint),
    kind: u32,
    address: u8,
    starts: &[u16],
    count: usize,
) -> io::Result<()> {
    for start in starts.iter().take(count) {
        put_read(rt, kind, address, *start)?;
    }
    Ok(())
}

// The reads of the module at an address, whose type is `kind`.
fn put_module(
    rt: &(impl Print + Eprint),
    picture: &[u8],
    address: u32,
    kind: u32,
) -> io::Result<()> {
    let mut starts = [0u16; MOST_STARTS];
    match plan::plan(picture, AddressAsked(address), &mut starts) {
        Ok(count) => put_reads(rt, kind, (address % 256) as u8, &starts, count as usize),
        Err(_) => Ok(()),
    }
}

fn put_module_at(rt: &(impl Print + Eprint), picture: &[u8], address: u32) -> io::Result<()> {
    match questions::type_of(picture, AddressAsked(address)) {
        Ok(kind) => put_module(rt, picture, address, kind as u32),
        Err(_) => Ok(()),
    }
}

// The frames of every read, in address order.
fn put_frames(rt: &(impl Print + Eprint), picture: &[u8]) -> io::Result<()> {
    for address in 0..ADDRESSES {
        put_module_at(rt, picture, address)?;
    }
    Ok(())
}

// Whether the one argument is --frames.
fn wants_frames(rt: &impl Env) -> bool {
    let mut word = [0u8; 16];
    match rt.arg(1, &mut word) {
        Ok(n) => word[..n] == b"--frames"[..],
        Err(_) => false,
    }
}

// A recording that breaks off is told, and what it said before the fault is used.
fn answer(rt: &(impl Env + Print + Eprint), picture: &[u8], stream: Stream) -> io::Result<()> {
    if stream.fault.is_some() {
        eprintln!(rt; "plan: the recording is broken; the plan goes by what was heard before")?;
    }
    if wants_frames(rt) {
        put_frames(rt, picture)
    } else {
        put_plans(rt, picture)
    }
}

// A recording that could not be read to its end is told, and gives no plan.
fn main(rt: HostRuntime) -> io::Result<()> {
    let mut picture = [0u8; picture::SIZE];
    let mut window = [0u8; WINDOW];
    let Ok(()) = picture::fresh_with(&mut picture, DEPTH) else {
        return eprintln!(rt; "plan: there is no room for a picture");
    };
    match inputs::hear_input(&mut rt.stdin(), &mut picture, &mut window) {
        Ok(stream) => answer(&rt, &picture, stream),
        Err(unheard) => eprintln!(rt; "plan: {unheard}"),
    }
}
