// Bytes copied from one slice to another. Nothing tells the compiler that two slices lie apart, so it makes a plain loop go byte by byte. Here
// sixteen bytes are loaded before one of them is stored, which it makes one load and one store.
ghost use Rattle.std.specs.Prelude.{◌≡◌, ◌+◌, ◌≤◌, length, take, drop};
ghost use Rattle.std.proofs.lemmas.List.Edits.{sets};
ghost use Rattle.laws.specs.Copies.{copied_in};

use laws::copy_in;

fn eight_at(s: &[u8], at: usize) -> [u8; 8]
    requires { at + 8 ≤ length s.now }
    ensures { (result ≡ take 8 (drop at s.now)) × (length result ≡ 8) }
{
    [
        s[at],
        s[at + 1],
        s[at + 2],
        s[at + 3],
        s[at + 4],
        s[at + 5],
        s[at + 6],
        s[at + 7],
    ]
}

fn store_eight(out: &mut [u8], at: usize, row: [u8; 8])
    requires { (at + 8 ≤ length out.old) × (length row ≡ 8) }
    ensures { out.new ≡ sets out.old at row }
{
    out[at] = row[0];
    out[at + 1] = row[1];
    out[at + 2] = row[2];
    out[at + 3] = row[3];
    out[at + 4] = row[4];
    out[at + 5] = row[5];
    out[at + 6] = row[6];
    out[at + 7] = row[7];
}

fn move_sixteen(s: &[u8], from: usize, out: &mut [u8], to: usize)
    requires { (from + 16 ≤ length s.now) × (to + 16 ≤ length out.old) }
    ensures { out.new ≡ sets out.old to (take 16 (drop from s.now)) }
{
    let low = eight_at(s, from);
    let high = eight_at(s, from + 8);
    store_eight(out, to, low);
    store_eight(out, to + 8, high);
}

const BLOCK: usize = 128;

fn move_block(s: &[u8], from: usize, out: &mut [u8], to: usize)
    requires { (from + 128 ≤ length s.now) × (to + 128 ≤ length out.old) }
    ensures { out.new ≡ sets out.old to (take 128 (drop from s.now)) }
{
    move_sixteen(s, from, out, to);
    move_sixteen(s, from + 16, out, to + 16);
    move_sixteen(s, from + 32, out, to + 32);
    move_sixteen(s, from + 48, out, to + 48);
    move_sixteen(s, from + 64, out, to + 64);
    move_sixteen(s, from + 80, out, to + 80);
    move_sixteen(s, from + 96, out, to + 96);
    move_sixteen(s, from + 112, out, to + 112);
}

// The whole blocks of the bytes, and how many bytes these are.
fn move_blocks(bytes: &[u8], out: &mut [u8]) -> usize
    requires { length bytes.now ≤ length out.old }
    ensures { (result ≤ length bytes.now) × (out.new ≡ sets out.old 0 (take result bytes.now)) }
{
    let blocks = bytes.len() / BLOCK;
    for i in 0..blocks {
        move_block(bytes, BLOCK * i, out, BLOCK * i);
    }
    BLOCK * blocks
}

// All of `bytes` to the beginning of a buffer, whole blocks first and the rest byte by byte; nothing where they have no room.
pub fn copy_front(out: &mut [u8], bytes: &[u8])
    ensures { out.new ≡ copied_in out.old 0 bytes.now }
{
    if out.len() < bytes.len() {
        return;
    }
    let done = move_blocks(bytes, out);
    copy_in(out, done, &bytes[done..]);
}

const PIECE: usize = 16;

// The whole pieces of sixteen bytes, and how many bytes these are.
fn move_pieces(bytes: &[u8], out: &mut [u8]) -> usize
    requires { length bytes.now ≤ length out.old }
    ensures { (result ≤ length bytes.now) × (out.new ≡ sets out.old 0 (take result bytes.now)) }
{
    let pieces = bytes.len() / PIECE;
    for i in 0..pieces {
        move_sixteen(bytes, PIECE * i, out, PIECE * i);
    }
    PIECE * pieces
}

// The same copy of bytes that are too few for a block, such as a name's.
pub fn copy_few(out: &mut [u8], bytes: &[u8])
    ensures { out.new ≡ copied_in out.old 0 bytes.now }
{
    if out.len() < bytes.len() {
        return;
    }
    let done = move_pieces(bytes, out);
    copy_in(out, done, &bytes[done..]);
}
