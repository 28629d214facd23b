// What is stored into a picture's bytes: the two bytes of a place, the ring of log entries, and a step back, which puts what an entry keeps back.
// Every function that other crates see is total on any bytes.
#![tactic(auto)]

mod back;
mod bytes;
mod entries;

pub use back::step_back;
pub use bytes::{put_build, put_pair, put_row};
pub use entries::{DID_ENTER, DID_NOTHING, lies, note, save};
