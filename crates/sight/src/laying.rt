// Replies laid into the buffer as the writer would write them, without a message: what it would test is known here.
ghost use Rattle.std.specs.Prelude.{◌≡◌, ◌+◌, ◌*◌, ◌≤◌, true, [], ◌∷◌, length};
ghost use Rattle.std.proofs.lemmas.List.Edits.{sets};
ghost use Rattle.kinds.specs.Bits.{one_bit};
ghost use Rattle.replies.specs.Bench.{bench_size};
ghost use Rattle.replies.specs.Replies.{block, blocks, dump, status, answers};
ghost use Rattle.frame.specs.declared.messages.Command.TheVariants.{CellAsked, NameAsked};
ghost use Rattle.bench.specs.Sending.{reply_bytes, all_bytes};
ghost use Rattle.sight.specs.Arms.{laid, six_of, four_of};

use codec::FRAME_SIZE;
use frame::{Data, LOW};
use laws::{byte_at, wide32};
use replies::{leds_shown, name_cell};

// The identifier of lowest priority and address 0.
pub(crate) const LOWEST: u32 = 512 * LOW;

// The first cell of a bench.
const CELLS: usize = 256;

// Twelve bytes a frame.
const FRAME: usize = FRAME_SIZE as usize;

// How many blocks of four all the cells are.
pub(crate) const BLOCKS: u8 = 64;

fn put_four(s: &mut [u8], at: usize, a: u8, b: u8, c: u8, d: u8)
    requires { at + 4 ≤ length s.old }
    ensures { s.new ≡ sets s.old at (a ∷ b ∷ c ∷ d ∷ []) }
{
    s[at] = a;
    s[at + 1] = b;
    s[at + 2] = c;
    s[at + 3] = d;
}

// A frame of lowest priority, from byte `at` of the buffer on.
fn lay(buffer: &mut [u8], at: usize, address: u8, d: Data)
    requires { at + 12 ≤ length buffer.old }
    ensures { buffer.new ≡ sets buffer.old at (laid address d) }
{
    let identifier = LOWEST + 2 * wide32(address);
    let low = (identifier % 256) as u8;
    let high = (identifier / 256 % 256) as u8;
    let count = (d.0 % 256) as u8;
    put_four(buffer, at, low, high, 0, count);
    put_four(buffer, at + 4, d.1, d.2, d.3, d.4);
    put_four(buffer, at + 8, d.5, d.6, d.7, d.8);
}

pub(crate) fn tell_cell(bench: &[u8], address: u8, l: u8, buffer: &mut [u8])
    requires { 12 ≤ length buffer.old }
    ensures { buffer.new ≡ sets buffer.old 0 (all_bytes address (answers bench.now (CellAsked (record { 0 = l })))) }
{
    let v = byte_at(bench, CELLS + l as usize);
    lay(buffer, 0, address, Data(4, 0xFE, 0, l, v, 0, 0, 0, 0));
}

// Four cells.
fn lay_block(bench: &[u8], address: u8, l: u8, buffer: &mut [u8], at: usize)
    requires { (bench_size ≤ length bench.now) × ((l ≤ 252) × (at + 12 ≤ length buffer.old)) }
    ensures { buffer.new ≡ sets buffer.old at (reply_bytes address (block bench.now l)) }
{
    let from = CELLS + l as usize;
    let a = bench[from];
    let b = bench[from + 1];
    let c = bench[from + 2];
    let d = bench[from + 3];
    lay(buffer, at, address, Data(7, 0xCC, 0, l, a, b, c, d, 0));
}

pub(crate) fn tell_block(bench: &[u8], address: u8, l: u8, buffer: &mut [u8])
    requires { (bench_size ≤ length bench.now) × ((l ≤ 252) × (12 ≤ length buffer.old)) }
    ensures { buffer.new ≡ sets buffer.old 0 (all_bytes address (block bench.now l ∷ [])) }
{
    lay_block(bench, address, l, buffer, 0);
}

// All the cells.
pub(crate) fn tell_all(bench: &[u8], address: u8, buffer: &mut [u8])
    requires { (bench_size ≤ length bench.now) × (768 ≤ length buffer.old) }
    ensures { buffer.new ≡ sets buffer.old 0 (all_bytes address (dump bench.now 0 blocks)) }
{
    for i in 0..BLOCKS {
        lay_block(bench, address, 4 * i, buffer, FRAME * i as usize);
    }
}

// The first two parts of a name: a channel, and six cells from byte `from` of the bench on.
fn lay_six(bench: &[u8], address: u8, part: u8, n: u8, from: usize, buffer: &mut [u8], at: usize)
    requires { (at + 12 ≤ length buffer.old) × (from ≤ 100000) }
    ensures { buffer.new ≡ sets buffer.old at (laid address (six_of part n bench.now from)) }
{
    let a = byte_at(bench, from);
    let b = byte_at(bench, from + 1);
    let c = byte_at(bench, from + 2);
    let d = byte_at(bench, from + 3);
    let e = byte_at(bench, from + 4);
    let f = byte_at(bench, from + 5);
    lay(buffer, at, address, Data(8, part, n, a, b, c, d, e, f));
}

// The last part, of four cells.
fn lay_last(bench: &[u8], address: u8, n: u8, from: usize, buffer: &mut [u8], at: usize)
    requires { (at + 12 ≤ length buffer.old) × (from ≤ 100000) }
    ensures { buffer.new ≡ sets buffer.old at (laid address (four_of n bench.now from)) }
{
    let a = byte_at(bench, from);
    let b = byte_at(bench, from + 1);
    let c = byte_at(bench, from + 2);
    let d = byte_at(bench, from + 3);
    lay(buffer, at, address, Data(6, 0xF2, n, a, b, c, d, 0, 0));
}

// A name, in three parts.
pub(crate) fn tell_name(bench: &[u8], address: u8, n: u8, buffer: &mut [u8])
    requires { (one_bit n ≡ true) × (36 ≤ length buffer.old) }
    ensures { buffer.new ≡ sets buffer.old 0 (all_bytes address (answers bench.now (NameAsked n))) }
{
    let l = name_cell(n);
    let from = CELLS + l.0 as usize;
    lay_six(bench, address, 0xF0, n, from, buffer, 0);
    lay_six(bench, address, 0xF1, n, from + 6, buffer, FRAME);
    lay_last(bench, address, n, from + 12, buffer, 2 * FRAME);
}

// The status: no channel is pressed, and the LEDs.
pub(crate) fn tell_status(bench: &[u8], address: u8, buffer: &mut [u8])
    requires { 12 ≤ length buffer.old }
    ensures { buffer.new ≡ sets buffer.old 0 (all_bytes address (status bench.now ∷ [])) }
{
    let s = leds_shown(bench);
    lay(buffer, 0, address, Data(5, 0xEB, 0, s.0, s.1, s.2, 0, 0, 0));
}
