// A fresh picture.
ghost use Rattle.std.specs.Prelude.{◌≡◌, ◌≤◌, length};
ghost use Rattle.laws.specs.Codes.{coded};
ghost use Rattle.shape.specs.Layout.{head_size};
ghost use Rattle.steering.specs.Fresh.{zeroed, freshening_with, freshening};

use laws::Refusal;
use shape::{DEPTH_AT, HEAD_SIZE, MOST_DEPTH, SIZE, put_at};

// The greatest depth that may be named, and the one that naming none gives.
const DEEPEST: u32 = MOST_DEPTH as u32;

fn clear_head(picture: &mut [u8])
    requires { head_size ≤ length picture.old }
    ensures { picture.new ≡ zeroed picture.old head_size }
{
    picture[..HEAD_SIZE].fill(0);
}

// No module, nothing kept, and a way back of that depth; whatever lies in the rest is never read again.
pub fn fresh_with(picture: &mut [u8], depth: u32) -> Result<(), Refusal>
    ensures value { coded result ≡ (freshening_with picture.old depth).outcome }
    ensures picture_after { picture.new ≡ (freshening_with picture.old depth).buffer }
{
    if picture.len() < SIZE {
        return Err(Refusal::TooShort);
    }
    if depth > DEEPEST {
        return Err(Refusal::NoSuchPlace);
    }
    clear_head(picture);
    put_at(picture, DEPTH_AT, depth as u8);
    Ok(())
}

// A fresh picture of the greatest depth.
pub fn fresh(picture: &mut [u8]) -> Result<(), Refusal>
    ensures value { coded result ≡ (freshening picture.old).outcome }
    ensures picture_after { picture.new ≡ (freshening picture.old).buffer }
{
    fresh_with(picture, DEEPEST)
}
