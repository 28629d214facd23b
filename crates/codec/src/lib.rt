// Messages written as Velbus frames, and what reading and writing make of each other.
#![tactic(auto)]

mod encoding;
mod faults;
mod writer;

pub use writer::{FRAME_SIZE, Frame, frame_bytes, handed, write};
