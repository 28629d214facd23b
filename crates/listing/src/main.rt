// Reads a recording from standard input, of any length, and writes the listing of what was heard to standard output.
#![tactic(auto)]

use replay::Stream;
use std::io;
use texts::LISTING_ROOM;

// The way back's depth on which the classroom program has always relied.
const DEPTH: u32 = 16;

// The bytes of the input that are looked at together.
const WINDOW: usize = 65536;

// Lists what was heard, and tells where the listing could not be made, or not written to its end.
fn put_out(rt: &(impl Print + Eprint), picture: &[u8], stream: Stream) -> io::Result<()> {
    let mut out = [0u8; LISTING_ROOM];
    let Ok(n) = texts::put_listing(picture, &mut out, stream) else {
        return eprintln!(rt; "listing: there is no room for the listing");
    };
    match rt.write_all(&out[0..n]) {
        Ok(()) => Ok(()),
        Err(_) => eprintln!(rt; "listing: the listing could not be written"),
    }
}

// A recording that could not be read and heard to its end is told, and never shown as a short listing.
fn main(rt: HostRuntime) -> io::Result<()> {
    let mut picture = [0u8; picture::SIZE];
    let mut window = [0u8; WINDOW];
    let Ok(()) = picture::fresh_with(&mut picture, DEPTH) else {
        return eprintln!(rt; "listing: there is no room for a picture");
    };
    match inputs::hear_input(&mut rt.stdin(), &mut picture, &mut window) {
        Ok(stream) => put_out(&rt, &picture, stream),
        Err(unheard) => eprintln!(rt; "listing: {unheard}"),
    }
}
