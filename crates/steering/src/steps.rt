// One step more is kept.
ghost use Rattle.std.specs.Prelude.{◌≡◌};
ghost use Rattle.steering.specs.Steps.{one_more, stepped};

use laws::byte_at;
use shape::{KEPT_AT, NEXT_AT, depth_of, kept_of, put_at};

// One step more, up to the depth.
fn keep_more(picture: &mut [u8])
    ensures { picture.new ≡ one_more picture.old }
{
    let kept = kept_of(picture);
    if kept < depth_of(picture) {
        put_at(picture, KEPT_AT, kept + 1);
    }
}

// One step more is kept, and the ring moves on.
pub fn step_on(picture: &mut [u8])
    ensures { picture.new ≡ stepped picture.old }
{
    let next = byte_at(picture, NEXT_AT);
    keep_more(picture);
    put_at(picture, NEXT_AT, std::num::wrapping_add_u8(next, 1));
}
