// A step back.
ghost use Rattle.std.specs.Prelude.{◌≡◌, pred, ◌<◌, ◌≤◌, length, slice_set};
ghost use Rattle.laws.specs.Codes.{coded};
ghost use Rattle.shape.specs.Limits.{ring};
ghost use Rattle.shape.specs.Layout.{count_at, size};
ghost use Rattle.shape.specs.Head.{modules_of};
ghost use Rattle.stores.specs.Stepping.{undone, back_over, stepping_back};

use crate::bytes::{copy_sixteen, number_at};
use crate::entries::DID_ENTER;
use laws::{Refusal, byte_at};
use shape::{
    COUNT_AT, KEPT_AT, NEXT_AT, OLD_SIZE, RING, RING_AT, SIZE, kept_of, modules_of, offset_at,
    old_at, put_at,
};

// The last offset from which sixteen bytes lie below the ring.
const LAST_OFFSET: u32 = (RING_AT - OLD_SIZE) as u32;

// The ring's next entry is counted modulo 256, so that this is one entry back.
const ONE_BACK: u8 = 255;

// One fewer, and 0 of 0.
fn one_fewer(n: u8) -> u8
    ensures { result ≡ pred n }
{
    if n < 1 { 0 } else { n - 1 }
}

// The module that was entered last is gone, and its room is free.
fn leave(picture: &mut [u8])
    ensures { picture.new ≡ slice_set picture.old count_at (pred (modules_of picture.old)) }
{
    let fewer = one_fewer(modules_of(picture));
    put_at(picture, COUNT_AT, fewer);
}

// What the entry keeps, back where it lay. One test guards any offset, and the copy cannot reach the log.
fn undo(picture: &mut [u8], entry: u8)
    requires { (size ≤ length picture.old) × (entry < ring) }
    ensures { picture.new ≡ undone picture.old entry }
{
    let offset = number_at(picture, offset_at(entry));
    if offset <= LAST_OFFSET {
        copy_sixteen(picture, offset as usize, old_at(entry));
        return;
    }
    if offset == DID_ENTER {
        leave(picture);
    }
}

// The last entry undone, one step fewer kept, and the ring back at that entry.
fn back_over(picture: &mut [u8])
    requires { size ≤ length picture.old }
    ensures { picture.new ≡ back_over picture.old }
{
    let fewer = one_fewer(kept_of(picture));
    let last = std::num::wrapping_add_u8(byte_at(picture, NEXT_AT), ONE_BACK);
    undo(picture, last % RING);
    put_at(picture, KEPT_AT, fewer);
    put_at(picture, NEXT_AT, last);
}

pub fn step_back(picture: &mut [u8]) -> Result<(), Refusal>
    ensures value { coded result ≡ (stepping_back picture.old).outcome }
    ensures picture_after { picture.new ≡ (stepping_back picture.old).buffer }
{
    if picture.len() < SIZE {
        return Err(Refusal::TooShort);
    }
    if kept_of(picture) == 0 {
        return Err(Refusal::NothingKept);
    }
    back_over(picture);
    Ok(())
}
