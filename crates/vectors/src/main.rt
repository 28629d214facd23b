// Runs the statements of standard input, a line each, through the library, and compares each answer, in words, with what the line says.
#![tactic(auto)]

mod answers;
mod frames;
mod pictures;
mod plans;
mod recordings;
mod rows;
mod statements;
mod text;
mod words;

use std::io;

// The bytes that the text has room in.
const TEXT_ROOM: usize = 65536;

fn main(rt: HostRuntime) -> io::Result<()> {
    let mut text = [0u8; TEXT_ROOM];
    let mut picture = [0u8; picture::SIZE];
    let n = inputs::read_full(&mut rt.stdin(), &mut text)?;
    let t = statements::run(&rt, &text[..n], &mut picture)?;
    statements::tell(&rt, t, n < TEXT_ROOM)
}
