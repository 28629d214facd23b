// The message that a frame's data bytes are.
#![tactic(auto)]

mod decoding;

pub use decoding::decoded;
