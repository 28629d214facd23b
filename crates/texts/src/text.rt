// Pieces of text, each put where it has room: a byte, a byte string, a number in decimal, a byte in hexadecimal.
ghost use Rattle.std.specs.Prelude.{[], ◌∷◌, ◌≡◌, ◌<◌};
ghost use Rattle.texts.specs.Text.{Fits, Written, decimal, in_decimal, hex_digit, in_hex};

use laws::copy_in;

// The most digits that a 64-bit number has.
const MOST_DIGITS: u32 = 20;

pub(crate) fn put_byte(out: &mut [u8], at: usize, b: u8) -> usize
    requires { Fits out.old at (b ∷ []) }
    ensures { Written out.old at (b ∷ []) out.new result }
{
    out[at] = b;
    at + 1
}

pub(crate) fn put_text(out: &mut [u8], at: usize, text: &[u8]) -> usize
    requires { Fits out.old at text.now }
    ensures { Written out.old at text.now out.new result }
{
    copy_in(out, at, text);
    at + text.len()
}

// The number n, of at most `left` digits: all digits but the last, and then the last.
fn put_digits(out: &mut [u8], at: usize, left: u32, n: u64) -> usize
    requires { Fits out.old at (decimal left n) }
    ensures { Written out.old at (decimal left n) out.new result }
{
    if left == 0 {
        return at;
    }
    if n < 10 {
        return put_byte(out, at, b'0' + n as u8);
    }
    let last = put_digits(out, at, left - 1, n / 10);
    put_byte(out, last, b'0' + (n % 10) as u8)
}

pub(crate) fn put_decimal(out: &mut [u8], at: usize, n: u64) -> usize
    requires { Fits out.old at (in_decimal n) }
    ensures { Written out.old at (in_decimal n) out.new result }
{
    put_digits(out, at, MOST_DIGITS, n)
}

fn hex_digit(d: u8) -> u8
    requires { d < 16 }
    ensures { result ≡ hex_digit d }
{
    if d < 10 { b'0' + d } else { b'A' + (d - 10) }
}

pub(crate) fn put_hex(out: &mut [u8], at: usize, b: u8) -> usize
    requires { Fits out.old at (in_hex b) }
    ensures { Written out.old at (in_hex b) out.new result }
{
    let low = put_byte(out, at, hex_digit(b / 16));
    put_byte(out, low, hex_digit(b % 16))
}
