// A recording heard record by record: the records of a slice, and those of an input that comes in parts, through a window.
#![tactic(auto)]

mod records;
mod window;

pub use records::{Replay, hear_all};
pub use window::{Stop, Stream, begin, hear_part};
