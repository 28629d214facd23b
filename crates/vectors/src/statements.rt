// The statements: which there are, and what is done for each. A line is a question, and after "is" the answer in words; where it says
// none, the answer is "done".
use crate::answers::{Words, outcome, said, say};
use crate::text::{after, part, past, word};
use crate::words::{Reader, take_all};
use crate::{frames, pictures, plans, recordings, rows};
use laws::{Refusal, byte_at};
use std::io;

#[derive(Drop)]
pub struct Tally {
    pub agreed: u64,
    pub differed: u64,
}

// The bytes of a pattern's line, and where its letter stands in it.
const LINE: usize = 32;

const LETTER: usize = 30;

// What is done for a question, by its letter.
fn apart(letter: u8, r: Reader, data: &[u8]) -> Words {
    match letter {
        b'r' => frames::read(r, data),
        b'E' => frames::each(r, data),
        b'd' => frames::documented(r, data),
        b'm' => frames::layout(r, data),
        b'w' => frames::write(r, data),
        b'o' => recordings::record(r, data),
        b'p' => recordings::put(r, data),
        b'e' => recordings::recording(data),
        _ => say(b""),
    }
}

// The questions on the picture, and those above.
fn asked(letter: u8, r: Reader, data: &[u8], picture: &[u8]) -> Words {
    match letter {
        b'K' | b'T' | b'Y' | b'V' | b'C' | b'L' | b'I' => pictures::asked(letter, r, picture),
        b'n' => rows::name(r, picture),
        b'R' => rows::row(r, picture),
        b'A' => rows::listed(r, picture),
        b'q' => plans::plan(r, picture),
        b'Q' => plans::right(r, data, picture),
        _ => apart(letter, r, data),
    }
}

// What changes the picture.
fn changed(letter: u8, r: Reader, data: &[u8], picture: &mut [u8]) -> Result<(), Refusal> {
    match letter {
        b'F' => picture::fresh(picture),
        b'X' => picture::fresh_with(picture, r.a),
        b'W' => pictures::fresh_with(r, picture),
        b'H' => picture::hear(picture, r.a, r.b, data),
        _ => picture::step_back(picture),
    }
}

// All statements.
fn perform(letter: u8, r: Reader, data: &[u8], picture: &mut [u8]) -> Words {
    match letter {
        b'F' | b'X' | b'W' | b'H' | b'B' => outcome(changed(letter, r, data, picture)),
        b'S' => recordings::short(r, picture),
        b'P' => recordings::listing(picture, data),
        _ => asked(letter, r, data, picture),
    }
}

// A question as a pattern reads it. Most patterns are told from it by their first letter.
fn read_by(pattern: &[u8], q: &[u8]) -> Option<Reader> {
    if byte_at(pattern, 0) != byte_at(q, 0) {
        return None;
    }
    take_all(q, part(pattern, 0, LETTER), byte_at(pattern, LETTER))
}

// A question as the first pattern reads it that reads all of it.
fn read(patterns: &[u8], q: &[u8]) -> Option<Reader> {
    patterns
        .chunks_exact(LINE)
        .find_map(|pattern| read_by(pattern, q))
}

// The answer; none where a question cannot be read.
fn answer(patterns: &[u8], q: &[u8], picture: &mut [u8]) -> Words {
    let Some(r) = read(patterns, q) else {
        return say(b"");
    };
    perform(r.letter, r, part(&r.bytes, 0, r.count), picture)
}

// Where a word stands in a line.
fn find_word(line: &[u8], sought: &[u8]) -> Option<usize> {
    let mut at = 0;
    // The place is kept by hand: split would take a space at the line's end for a word more.
    for _ in 0..line.len() {
        if at >= line.len() {
            break;
        }
        let w = word(line, at);
        if w == sought {
            return Some(at);
        }
        at = after(at, w);
    }
    None
}

// What stands before "is", without the space; all, where the line says no answer.
fn question(line: &[u8], is: Option<usize>) -> &[u8] {
    match is {
        Some(at) => part(line, 0, at.wrapping_sub(1)),
        None => line.strip_suffix(b" ").unwrap_or(line),
    }
}

// The answer that a line says.
fn expected(line: &[u8], is: Option<usize>) -> &[u8] {
    match is {
        Some(at) => part(line, past(at, 2), line.len()),
        None => b" done",
    }
}

fn tell_difference(rt: &impl Print, number: u64, line: &[u8], got: &[u8]) -> io::Result<()> {
    print!(rt; "line {number}: ")?;
    rt.write_all(line)?;
    print!(rt; "\n  it is")?;
    rt.write_all(got)?;
    if got.is_empty() {
        print!(rt; " no statement")?;
    }
    println!(rt)
}

// A statement: whether it agrees, and where it does not, that is told.
fn holds(
    rt: &impl Print,
    patterns: &[u8],
    line: &[u8],
    number: u64,
    picture: &mut [u8],
) -> io::Result<bool> {
    let is = find_word(line, b"is");
    let w = answer(patterns, question(line, is), picture);
    let got = said(&w);
    if !got.is_empty() && got == expected(line, is) {
        return Ok(true);
    }
    tell_difference(rt, number, line, got)?;
    Ok(false)
}

// One line: a comment, nothing, or a statement. The counts never wrap: no text has so many lines.
fn count(
    rt: &impl Print,
    t: &mut Tally,
    patterns: &[u8],
    line: &[u8],
    number: u64,
    picture: &mut [u8],
) -> io::Result<()> {
    if line.is_empty() || byte_at(line, 0) == b'#' {
        return Ok(());
    }
    if holds(rt, patterns, line, number, picture)? {
        t.agreed = t.agreed.wrapping_add(1);
    } else {
        t.differed = t.differed.wrapping_add(1);
    }
    Ok(())
}

// All lines.
fn run_lines(
    rt: &impl Print,
    text: &[u8],
    patterns: &[u8],
    picture: &mut [u8],
) -> io::Result<Tally> {
    let mut t = Tally {
        agreed: 0,
        differed: 0,
    };
    for (i, line) in text.split(|b| *b == b'\n').enumerate() {
        count(rt, &mut t, patterns, line, past(i, 1) as u64, picture)?;
    }
    Ok(t)
}

// The lines of a text, by the patterns (words.rt) of what is asked, each with its letter.
pub(crate) fn run(rt: &impl Print, text: &[u8], picture: &mut [u8]) -> io::Result<Tally> {
    let patterns = b"read T F B                    r
read type H F B               r
each byte after T F B         E
documented T P B              d
layout T F B                  m
write T B                     w
write type H B                w
fresh                         F
fresh depth D                 X
fresh with T A and T A        W
hear F B                      H
back                          B
kept count                    K
type H                        T
build year H                  Y
build week H                  V
cell H H                      C
led H D                       L
blind H D                     I
name H D                      n
name H D into D               n
row H into D entry H          R
listed H into D               A
picture of D bytes            S
plan H into D bytes           q
right plan H                  Q
right plan H B                Q
record gap G F B              o
put at D of D gap G F B       p
recording B                   e
listing B                     P
";
    run_lines(rt, text, patterns, picture)
}

// The counts. A text that fills its room may be longer than that, and what is beyond is not read: that is told.
pub(crate) fn tell(rt: &impl Print, t: Tally, whole: bool) -> io::Result<()> {
    if !whole {
        println!(rt; "the text is too long")?;
    }
    if t.differed != 0 {
        print!(rt; "{} statements differ, ", t.differed)?;
    }
    println!(rt; "{} statements agree", t.agreed)
}
