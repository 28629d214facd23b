// Bytes copied to the beginning of a lent buffer, in blocks that the compiler makes few loads and stores of.
#![tactic(auto)]

mod blocks;

pub use blocks::{copy_few, copy_front};
