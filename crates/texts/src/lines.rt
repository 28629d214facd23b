// The listing's lines, each with its newline.
ghost use Rattle.std.specs.Prelude.{◌++◌};
ghost use Rattle.texts.specs.Text.{Fits, Written, in_decimal, in_hex, letters};
ghost use Rattle.texts.specs.Lines.{header, numbered, two_numbers, module_line, broken_line, count_line};

use crate::text::{put_byte, put_decimal, put_hex, put_text};

pub(crate) fn put_header(out: &mut [u8], at: usize) -> usize
    requires { Fits out.old at header }
    ensures { Written out.old at header out.new result }
{
    put_text(out, at, b"address type names cells\n")
}

// A word and a number.
pub(crate) fn put_numbered(out: &mut [u8], at: usize, word: &[u8], n: u64) -> usize
    requires { Fits out.old at (numbered word.now n) }
    ensures { Written out.old at (numbered word.now n) out.new result }
{
    let digits = put_text(out, at, word);
    put_decimal(out, digits, n)
}

// Two words, each with its number, and the newline.
fn put_two_numbers(out: &mut [u8], at: usize, first: &[u8], m: u64, second: &[u8], n: u64) -> usize
    requires { Fits out.old at (two_numbers first.now m second.now n) }
    ensures { Written out.old at (two_numbers first.now m second.now n) out.new result }
{
    let rest = put_numbered(out, at, first, m);
    let end = put_numbered(out, rest, second, n);
    put_byte(out, end, b'\n')
}

// The line of a module: address and type in hexadecimal, the count of its whole names and that of its told cells.
pub(crate) fn put_module_line(
    out: &mut [u8],
    at: usize,
    address: u8,
    kind: u8,
    names: u64,
    cells: u64,
) -> usize
    requires { Fits out.old at (module_line address kind names cells) }
    ensures { Written out.old at (module_line address kind names cells) out.new result }
{
    let space = put_hex(out, at, address);
    let type_at = put_byte(out, space, b' ');
    let counts = put_hex(out, type_at, kind);
    put_two_numbers(out, counts, b" ", names, b" ", cells)
}

// The line of a fault in the recording.
pub(crate) fn put_broken_line(out: &mut [u8], at: usize, offset: u64, refusal: u64) -> usize
    requires { Fits out.old at (broken_line offset refusal) }
    ensures { Written out.old at (broken_line offset refusal) out.new result }
{
    put_two_numbers(out, at, b"broken at byte ", offset, b" refusal ", refusal)
}

// The last line.
pub(crate) fn put_count_line(out: &mut [u8], at: usize, heard: u64, refused: u64) -> usize
    requires { Fits out.old at (count_line heard refused) }
    ensures { Written out.old at (count_line heard refused) out.new result }
{
    put_two_numbers(out, at, b"heard ", heard, b" refused ", refused)
}
