// Where a picture's parts lie in its bytes, what steers, and the number of a place that is not heard; every function here is total on any bytes.
#![tactic(auto)]

mod answers;
mod bytes;
mod head;
mod layout;

pub use answers::NOT_HEARD;
pub use bytes::put_at;
pub use head::{NO_SLOT, depth_of, kept_of, kind_in, listed_slot, modules_of, next_of, slot_of};
pub use layout::{
    ADDRESSES, COUNT_AT, DEPTH_AT, HEAD_SIZE, KEPT_AT, MOST_DEPTH, NEXT_AT, OLD_SIZE, RING,
    RING_AT, ROOM, SIZE, kind_at, offset_at, old_at, place_at, record_at, slot_at,
};
